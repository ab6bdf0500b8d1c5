// The problem's bytes read field by field, to the first fault with its place.
#![tactic(auto)]

mod clauses;
pub mod cursor;
mod numbers;
pub mod relation;
pub mod scan;
