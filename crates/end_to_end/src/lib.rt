// The promises, said of what the library's calls return: specs/ holds them. There is no code here.
#![tactic(auto)]
