// The rounds, one after another: each pairs the lines of its variable.
#![tactic(auto)]

pub mod pair;
pub mod round;
pub mod sequence;
pub mod side;
