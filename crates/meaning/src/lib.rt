// What a table means: runs, trails and outputs as the papers have them, the number that each call gives, and joining.
// There is no code here: the crates above are proved against these definitions.

#![tactic(auto)]
