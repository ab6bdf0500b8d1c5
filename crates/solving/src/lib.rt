// Solving: the buffers' sizes, the problem's faults, the elimination, and what its end leaves in proof and model.
#![tactic(auto)]

pub mod conclude;
mod decide;
pub mod solve;
