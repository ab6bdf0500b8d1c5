// Laws of numbers, amounts, steps, proofs and models in bytes: there and back. specs/ holds them. There is no code here.
#![tactic(auto)]
