// What a step of a proof states: a loaded part, or the resolvent of two earlier lines.
#![tactic(auto)]

pub mod compare;
pub mod derive;
