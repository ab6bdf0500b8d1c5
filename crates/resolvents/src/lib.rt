// Resolvents of two lines.
#![tactic(auto)]

pub mod boolean;
pub mod rational;
pub mod resolve;
