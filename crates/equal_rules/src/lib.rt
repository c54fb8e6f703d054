// What makes two tables equal, and laws about it: no code.
#![tactic(auto)]
