// What the field cursor makes is admitted, and covers every byte once: no code, only what specs/ says and proofs/ prove.
#![tactic(auto)]
