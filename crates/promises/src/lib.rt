// The demands as theorems about the definitions: specs/. There is no code here.
#![tactic(auto)]
