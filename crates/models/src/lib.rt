// A model: an assignment in machine words, its 64 bytes, and those bytes read back or refused at the first field at fault.
#![tactic(auto)]

pub mod booleans;
pub mod encode;
pub mod model;
pub mod numerators;
pub mod read;
