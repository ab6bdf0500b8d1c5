// The library for C: each call of the crate jemuling under its own name, with its own clauses. include/jemuling.h declares them.
#![tactic(auto)]

pub mod calls;
pub mod calls_in;
pub mod carrying;
pub mod shortening;
