// Handing back: which part of the lent proof or model a verdict gives its caller.
#![tactic(auto)]

pub mod evidence;
