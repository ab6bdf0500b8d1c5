// 02, (vi): which rational variables a conversion keeps, found in one pass over the clauses, and how many come of them.
#![tactic(auto)]

pub mod alone;
pub mod kept;
pub mod places;
