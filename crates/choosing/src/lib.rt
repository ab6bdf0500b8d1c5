// The rational variable of a round: "the remaining figure with the least U × L - U - L".
#![tactic(auto)]

pub mod choose;
pub mod counts;
