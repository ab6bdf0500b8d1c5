// The laws of bounds on one variable and of the value between them: specs/ holds them. There is no code here.
#![tactic(auto)]
