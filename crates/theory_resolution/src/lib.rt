// Laws of one step, of normalizing and resolving: specs/. There is no code here.
#![tactic(auto)]
