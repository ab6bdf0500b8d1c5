// The laws of divisors, sums of products and the two relations: specs/ holds them. There is no code here.
#![tactic(auto)]
