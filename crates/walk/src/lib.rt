// "Without an empty line, turns are walked backwards": the assignment that the lines of a proof come to.
#![tactic(auto)]

pub mod assign;
pub mod backwards;
mod round;
