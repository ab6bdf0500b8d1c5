// Carrying a problem over to the second edition, and a model back: the laws of it. specs/ holds them. There is no code here.
#![tactic(auto)]
