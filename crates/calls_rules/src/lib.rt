// Which kinds each call of the field cursor takes, how it aligns and what it places, and laws about it: no code.
#![tactic(auto)]
