// The steps of a proof: a step as its bytes, and step i of a proof's bytes, by its fields.
#![tactic(auto)]

pub mod access;
pub mod encode;
pub mod origin;
pub mod store;
