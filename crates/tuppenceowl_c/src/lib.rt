// The public calls for hosts in C and Rust, include/tuppenceowl.h. An answer is told by a status, and what it holds goes into lent numbers and
// bytes; any other status leaves all of them as they were.
#![tactic(auto)]

pub mod admitting;
pub mod building;
pub mod comparing;
pub mod finding;
pub mod hashing;
pub mod planning;
pub mod state;
pub mod texting;
pub mod upgrading;

// No such record or field, or not inside.
pub const NONE: u8 = 255;

// The call's other answer: dynamic, unplanned, different.
pub const OTHER: u8 = 254;
