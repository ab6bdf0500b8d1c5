// The saturation theorem and what it rests on: specs/ holds them. There is no code here.
#![tactic(auto)]
