// FieldCursor of dbn's builders.rs: fields are placed one behind the other in a lent table, and their names in lent slots.
#![tactic(auto)]

pub mod bytes;
pub mod placing;
