// The field rule's body, and what the steps of a plan make of each byte: no code, only what specs/ says and proofs/ prove.
#![tactic(auto)]
