// The parts of a clause in order, read from the problem's bytes; and those of the clauses that an edition adds.
#![tactic(auto)]

pub mod constraint;
pub mod edition;
pub mod part;
pub mod parts;
pub mod skip;
