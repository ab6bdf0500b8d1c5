// The check of a proof against its problem.
#![tactic(auto)]

pub mod check;
pub mod follow;
pub mod index;
pub mod load;
pub mod state;
