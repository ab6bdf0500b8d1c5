// Laws of tests and lists: specs/. There is no code here.
#![tactic(auto)]
