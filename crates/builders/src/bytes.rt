// A field and a name as the bytes that are lent.
ghost use Rattle.std.specs.Prelude.{◌≡◌, ◌≤◌, length};
ghost use Rattle.limits.specs.Limits.{max_name};
ghost use Rattle.cursor_rules.specs.Cursor.{row_of, slot_of};

use field::FieldDef;
use lent::store;

pub type Row = [u8; field::SIZE];

pub type Slot = [u8; limits::MAX_NAME + 1];

pub fn row(f: FieldDef) -> Row
    ensures { result ≡ row_of f }
{
    [
        store::low(f.field_id),
        store::high(f.field_id),
        store::low(f.offset),
        store::high(f.offset),
        store::low(f.size),
        store::high(f.size),
        f.type_id,
        f.flags,
        store::low(f.def_index),
        store::high(f.def_index),
        field::scale_byte(f.scale),
        0,
        0,
        0,
        0,
        0,
    ]
}

pub fn slot(name: &[u8]) -> Slot
    requires { length name.now ≤ max_name }
    ensures { result ≡ slot_of name.now }
{
    let mut all = [0u8; limits::MAX_NAME + 1];
    all[0] = name.len() as u8;
    store::copy(name, 0, &mut all, 1, name.len());
    all
}
