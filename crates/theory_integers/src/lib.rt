// The laws of the integers that the kit lacks: specs/ holds them. There is no code here.
#![tactic(auto)]
