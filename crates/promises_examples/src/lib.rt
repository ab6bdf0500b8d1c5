// The demands on some problems, computed: specs/ holds them. There is no code here.
#![tactic(auto)]
