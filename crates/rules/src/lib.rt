// Document 01 as definitions: specs/ holds them, and the examples computed on them. There is no code here.
#![tactic(auto)]
