// The text of a plan that a slot holds: its lines, how long it is, and the writer.
#![tactic(auto)]

pub mod lengths;
pub mod lines;
pub mod writer;
