// Trimming a proof to its last step and those from which it descends: the laws of it. specs/ holds them. There is no code here.
#![tactic(auto)]
