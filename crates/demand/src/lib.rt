// An upgraded record has the field rule's body, whatever plan is used that differs only in cuts: no code, only what specs/ says and proofs/ prove.
#![tactic(auto)]
