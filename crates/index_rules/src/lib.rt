// What the lookups find, and laws about it.
#![tactic(auto)]
