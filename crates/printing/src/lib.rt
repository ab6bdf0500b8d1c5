// Text made in a lent buffer from a place on: words, numbers, lines of them, the steps of a proof and a model. Each function's contract
// is the text; the caller sees to the room.
#![tactic(auto)]

pub mod counts;
pub mod model;
pub mod proof;
pub mod words;
