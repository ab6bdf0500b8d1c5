// 02, (xi): a proof trimmed to its last step and those from which it descends, written into a lent buffer.
#![tactic(auto)]

pub mod kept;
pub mod marks;
pub mod needed;
pub mod numbers;
pub mod trim;
