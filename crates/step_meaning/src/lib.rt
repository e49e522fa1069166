// What step and finish promise, that whoever keeps the promises has demand 2, and a step on lists of links and pieces.
// There is no code here, and nothing about a session's bytes but what they stand for.

#![tactic(auto)]
