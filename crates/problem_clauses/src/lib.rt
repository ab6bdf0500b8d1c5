// The clauses of a problem that was read without fault, read again from its bytes.
#![tactic(auto)]

pub mod constraint;
pub mod edition;
pub mod literals;
pub mod places;
pub mod readings;
pub mod splits;
