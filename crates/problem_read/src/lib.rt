// A problem read whole: its first fault 3 to 13 or 18 with its place, or the sizes of a problem without fault; and which of its variables
// stand in a clause.
#![tactic(auto)]

pub mod occurring;
pub mod over;
pub mod read;
