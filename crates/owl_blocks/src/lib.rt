// The blocks of two layouts, a source's and a target's, and what stands beside them: one room that a text of layouts is read into.
#![tactic(auto)]

pub mod pack;
pub mod room;
pub mod types;
