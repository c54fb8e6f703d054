// What a target field takes from a source record: op_for of dbn's upgrade.rs.
#![tactic(auto)]

pub mod rule;
