// What the programs read by their arguments, and what they say of it: results to standard output, messages to standard error.
#![tactic(auto)]

pub mod console;
pub mod files;
pub mod refusals;
