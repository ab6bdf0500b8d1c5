// Lines put behind the others of a proof.
#![tactic(auto)]

pub mod admit;
pub mod covered;
pub mod point;
