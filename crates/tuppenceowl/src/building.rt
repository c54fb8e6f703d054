// The field cursor. The state goes in by value and comes back; the fields go into a lent table, 16 bytes each from its start, and
// their names into lent slots, 33 bytes each. A refused call leaves both as they were.
// C holds the three apart (include/tuppenceowl.h), so each call makes a Builder of them.
ghost use Rattle.std.specs.Prelude.{◌≡◌};
ghost use Rattle.cursor_rules.specs.Cursor.{fresh, building, outcome};
ghost use Rattle.calls_rules.specs.Calls.{scalar_of, string_of, like_of, nested_of, at_of, finish_base_of};
ghost use Rattle.finishing.specs.Finish.{finish_of};

use builders::placing::Builder;
use cursor_rules::{FieldCursor, Times};
use field::{FieldDef, Holder};
use limits::refusal::Refusal;

pub fn empty(holder: Holder) -> FieldCursor
    ensures { result ≡ fresh holder }
{
    FieldCursor::empty(holder)
}

pub fn scalar(
    cat: &[u8],
    table: &mut [u8],
    names: &mut [u8],
    c: FieldCursor,
    field_id: u16,
    type_id: u8,
    size: u16,
    flags: u8,
    def_index: u16,
    name: &[u8],
) -> Result<FieldCursor, Refusal>
    ensures { outcome result table.new names.new ≡ scalar_of cat.now field_id type_id size flags def_index name.now (building c table.old names.old) }
{
    let mut b = Builder {
        table,
        names,
        state: c,
    };
    calls::scalar(&mut b, cat, field_id, type_id, size, flags, def_index, name)
}

pub fn string(
    cat: &[u8],
    table: &mut [u8],
    names: &mut [u8],
    c: FieldCursor,
    field_id: u16,
    type_id: u8,
    size: u16,
    flags: u8,
    name: &[u8],
) -> Result<FieldCursor, Refusal>
    ensures { outcome result table.new names.new ≡ string_of cat.now field_id type_id size flags name.now (building c table.old names.old) }
{
    let mut b = Builder {
        table,
        names,
        state: c,
    };
    calls::string(&mut b, cat, field_id, type_id, size, flags, name)
}

// The numbers of another field, all but its place and its def_index.
pub fn like(
    cat: &[u8],
    table: &mut [u8],
    names: &mut [u8],
    c: FieldCursor,
    def: FieldDef,
    def_index: u16,
    name: &[u8],
) -> Result<FieldCursor, Refusal>
    ensures { outcome result table.new names.new ≡ like_of cat.now def def_index name.now (building c table.old names.old) }
{
    let mut b = Builder {
        table,
        names,
        state: c,
    };
    calls::like(&mut b, cat, def, def_index, name)
}

// Struct k of a layout, once or as an array.
pub fn nested(
    cat: &[u8],
    layout: &[u8],
    table: &mut [u8],
    names: &mut [u8],
    c: FieldCursor,
    field_id: u16,
    k: u16,
    times: Times,
    name: &[u8],
) -> Result<FieldCursor, Refusal>
    ensures { outcome result table.new names.new ≡ nested_of cat.now layout.now field_id k times name.now (building c table.old names.old) }
{
    let mut b = Builder {
        table,
        names,
        state: c,
    };
    calls::nested(&mut b, cat, layout, field_id, k, times, name)
}

// The cursor goes to an offset that is not behind it.
pub fn at(
    cat: &[u8],
    table: &mut [u8],
    names: &mut [u8],
    c: FieldCursor,
    offset: usize,
) -> Result<FieldCursor, Refusal>
    ensures { outcome result table.new names.new ≡ at_of cat.now offset (building c table.old names.old) }
{
    let mut b = Builder {
        table,
        names,
        state: c,
    };
    b.move_to(cat, offset)
}

pub fn finish_base(
    cat: &[u8],
    table: &mut [u8],
    names: &mut [u8],
    c: FieldCursor,
) -> Result<FieldCursor, Refusal>
    ensures { outcome result table.new names.new ≡ finish_base_of cat.now (building c table.old names.old) }
{
    let mut b = Builder {
        table,
        names,
        state: c,
    };
    calls::finish_base(&mut b, cat)
}

// The answer's base and cursor are those of the whole.
pub fn finish(
    cat: &[u8],
    table: &mut [u8],
    names: &mut [u8],
    c: FieldCursor,
    ids: &[u16],
) -> Result<FieldCursor, Refusal>
    ensures { outcome result table.new names.new ≡ finish_of cat.now ids.now (building c table.old names.old) }
{
    let mut b = Builder {
        table,
        names,
        state: c,
    };
    finishing::finish(&mut b, cat, ids)
}
