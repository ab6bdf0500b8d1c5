// Rows of eight coefficients in machine words.
#![tactic(auto)]

pub mod combine;
pub mod content;
pub mod product;
pub mod turned;
