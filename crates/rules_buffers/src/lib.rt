// Whole calls computed on lent buffers: specs/Buffers.antt. There is no code here.
#![tactic(auto)]
