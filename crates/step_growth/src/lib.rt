// What follows the links of a session on a symbol, drafted.
#![tactic(auto)]

pub mod growth;
