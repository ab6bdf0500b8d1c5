// Splitting a clause into parts keeps what a problem means, and what reading makes sure of: specs/ holds the laws. There is no code here.
#![tactic(auto)]
