// Reading, pinned from outside: which problem the bytes are, and which fault is the first. specs/ holds it. There is no code here.
#![tactic(auto)]
