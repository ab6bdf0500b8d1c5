// What every crate shares: the limits of document 01, the terms and the answers of its calls, and where the fields of its bytes stand.
#![tactic(auto)]

pub mod answers;
pub mod layout;
pub mod limits;
pub mod terms;
