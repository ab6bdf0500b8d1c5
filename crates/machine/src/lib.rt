// Integers in machine words, each function equal to its definition over unbounded numbers.
#![tactic(auto)]

pub mod gcd;
pub mod sign;
