// The text of an answer: what the program prints (`printed` in rules/Print).
#![tactic(auto)]

pub mod answer;
