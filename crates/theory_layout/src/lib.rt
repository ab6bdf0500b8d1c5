// The layouts of a proof and of a model by offset, and that what is written and read has them. specs/ holds them. There is no code here.
#![tactic(auto)]
