// What the checks accept, and what an accepted proof or model means: specs/ holds the laws. There is no code here.
#![tactic(auto)]
