// The reader of plan text: what a text would be the plan of, and whether that is its text.
#![tactic(auto)]

pub mod reader;
