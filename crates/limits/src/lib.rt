// What is refused, and where the limits lie: once for all of the code. specs/ has the same once for all promises.
#![tactic(auto)]

pub mod refusal;

// Bytes of a record or a struct.
pub const MAX_BYTES: usize = 4096;
// Fields of a record's table, and of a struct's.
pub const MAX_FIELDS: usize = 128;

pub const MAX_STRUCT_FIELDS: usize = 32;
// Records of a layout, and structs.
pub const MAX_RECORDS: usize = 16;

pub const MAX_STRUCTS: usize = 16;
// Bytes of a name.
pub const MAX_NAME: usize = 32;
// Bytes of a header.
pub const MAX_HEADER: usize = 64;
// Steps of a plan.
pub const MAX_STEPS: usize = 128;
// The deepest level that a walk enters; a record's own fields are level 1.
pub const MAX_LEVEL: usize = 8;
// Visits of a walk that is given no budget.
pub const DEFAULT_BUDGET: usize = 65536;
