// Fractions and gathered bounds in machine words, each function equal to its definition over unbounded numbers.
#![tactic(auto)]

pub mod bound;
pub mod fraction;
