// Laws of the elimination: specs/. There is no code here.
#![tactic(auto)]
