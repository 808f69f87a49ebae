// Answers, refusals, tokens and nodes as numbers, for what is exported.
#![tactic(auto)]

pub mod cells;
pub mod pack;
