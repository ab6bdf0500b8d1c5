// One round of the walk backwards: what the lines of its round make of a variable.
#![tactic(auto)]

pub mod boolean;
pub mod gather;
pub mod holds;
pub mod rational;
mod sum;
