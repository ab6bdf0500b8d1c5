// The elimination of a problem in a proof's bytes: the parts of the clauses are loaded in order, then the rounds run.
#![tactic(auto)]

pub mod clause;
pub mod eliminate;
pub mod load;
