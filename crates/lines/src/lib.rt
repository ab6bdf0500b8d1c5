// Lines in machine words.
#![tactic(auto)]

pub mod line;
pub mod order;
pub mod row;
