// Lines brought to one form.
#![tactic(auto)]

pub mod normalize;
pub mod reduce;
