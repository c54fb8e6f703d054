// What refusals 3 to 6 ask of one table, and laws about it.
#![tactic(auto)]

// What is tested of a table, in the order of the refusals.
#[derive(Clone, Copy, Debug, PartialEq, Eq)]
pub enum Rule {
    Reserved,
    Bounds,
    Apart,
    Width,
}
