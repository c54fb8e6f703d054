// The field cursor of dbn's builders.rs: its state, how it begins, which flags it gives; what it is to place a field, and laws about that.
#![tactic(auto)]

ghost use Rattle.std.specs.Prelude.{◌≡◌};
ghost use Rattle.cursor_rules.specs.Cursor.{field_limit, fresh, flags_after};

use field::{FieldDef, Holder};

#[derive(Clone, Copy, Debug, PartialEq, Eq)]
pub struct FieldCursor {
    // The most fields that the table may have.
    pub most: usize,
    pub count: usize,
    pub cursor: usize,
    // The base, once it is noted; before that a number that C's state keeps as it was, so it is no Option.
    pub base: usize,
    pub based: bool,
}

// How often a struct stands in a nested field. It is no Option of a count: an array of one is an array.
#[derive(Clone, Copy, Debug, PartialEq, Eq)]
pub enum Times {
    One,
    Array(u16),
}

fn field_limit(holder: Holder) -> usize
    ensures { result ≡ field_limit holder }
{
    match holder {
        Holder::Record => limits::MAX_FIELDS,
        Holder::Struct => limits::MAX_STRUCT_FIELDS,
    }
}

impl FieldCursor {
    pub fn empty(holder: Holder) -> Self
        ensures { result ≡ fresh holder }
    {
        Self {
            most: field_limit(holder),
            count: 0,
            cursor: 0,
            base: 0,
            based: false,
        }
    }
}

// A field behind the base has the extension flag, padding never.
pub fn flags_after(cat: &[u8], c: FieldCursor, f: FieldDef) -> u8
    ensures { result ≡ flags_after cat.now c f }
{
    if c.based & (catalogue::class_of(cat, f.type_id) != catalogue::PADDING) {
        return f.flags | catalogue::extension_flag(cat);
    }
    f.flags
}
