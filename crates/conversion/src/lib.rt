// 02, (vi): a first-edition problem carried over to the second edition, written into a lent buffer.
#![tactic(auto)]

pub mod clauses;
pub mod comparisons;
pub mod convert;
pub mod row;
