// A layout in one block of lent bytes (docs/FORMATS.md).
#![tactic(auto)]

pub mod block;
pub mod find;
pub mod shape;
