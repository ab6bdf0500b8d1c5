// 02, (vi): a model of a problem that was carried over, carried back to a model of the old problem.
#![tactic(auto)]

pub mod carry;
pub mod numerators;
