// The check of a model: whether the assignment that its bytes say satisfies the problem, clause by clause from the problem's bytes.
#![tactic(auto)]

pub mod check;
pub mod clause;
pub mod comparison;
pub mod failing;
pub mod literal;
