// Which layouts are admitted, and laws about it.
#![tactic(auto)]

use table_rules::Rule;

// What is asked of each table: one rule, or all of them in one pass. Both are tests, so it is no Option of a rule.
#[derive(Clone, Copy)]
pub enum Test {
    Each(Rule),
    Tidy,
}
