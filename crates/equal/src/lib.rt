// FieldDef's equality of dbn's compare.rs: the same numbers, and structs with the same fields.
// That structs have few fields is known of admitted layouts, which are lent as bytes: a type that holds it would be opened at every read.
#![tactic(auto)]

ghost use Rattle.std.specs.Prelude.{◌≡◌, ◌+◌, ◌*◌, ◌≤◌, length};
ghost use Rattle.limits.specs.Limits.{max_struct_fields};
ghost use Rattle.field.specs.Field.{field_at};
ghost use Rattle.layout.specs.Layout.{struct_at, FewFields};
ghost use Rattle.equal_rules.specs.Equal.{eq_except_def_index, struct_eq, named_eq, field_eq};

use field::{FieldDef, Holder};
use layout::block;
use layout::block::Head;

fn eq_except_def_index(a: FieldDef, b: FieldDef) -> bool
    ensures { result ≡ eq_except_def_index a b }
{
    (a.field_id == b.field_id)
        & ((a.offset == b.offset)
            & ((a.size == b.size)
                & ((a.type_id == b.type_id) & ((a.flags == b.flags) & (a.scale == b.scale)))))
}

// The structs whose heads are h of the stream and g of the compiled layout.
fn struct_eq(s: &[u8], h: Head, c: &[u8], g: Head) -> bool
    requires { (length (struct_at s.now h).table ≤ 16 * max_struct_fields) × (length (struct_at c.now g).table ≤ 16 * max_struct_fields) }
    ensures { result ≡ struct_eq (struct_at s.now h) (struct_at c.now g) }
{
    if block::struct_size(s, h) != block::struct_size(c, g) {
        return false;
    }
    let haves = block::table_at(Holder::Struct, s, h);
    let wants = block::table_at(Holder::Struct, c, g);
    let n = haves.len() / field::SIZE;
    if n != wants.len() / field::SIZE {
        return false;
    }
    let mut a = [0u16; limits::MAX_STRUCT_FIELDS];
    field::order::by_offset(haves, n, &mut a);
    let mut b = [0u16; limits::MAX_STRUCT_FIELDS];
    field::order::by_offset(wants, n, &mut b);
    for k in 0..n {
        let have = field::field_at(haves, lent::wide16(a[k]));
        let want = field::field_at(wants, lent::wide16(b[k]));
        if !eq_except_def_index(have, want) {
            return false;
        }
    }
    true
}

fn named_eq(s: &[u8], f: FieldDef, c: &[u8], g: FieldDef) -> bool
    requires { FewFields s.now × FewFields c.now }
    ensures { result ≡ named_eq s.now f c.now g }
{
    if !block::has_struct(s, f) {
        return false;
    }
    if !block::has_struct(c, g) {
        return false;
    }
    struct_eq(
        s,
        block::struct_head(s, f.def_index),
        c,
        block::struct_head(c, g.def_index),
    )
}

pub fn field_eq(cat: &[u8], s: &[u8], f: FieldDef, c: &[u8], g: FieldDef) -> bool
    requires { FewFields s.now × FewFields c.now }
    ensures { result ≡ field_eq cat.now s.now f c.now g }
{
    if !eq_except_def_index(f, g) {
        return false;
    }
    if !field::is_struct(cat, f) {
        return true;
    }
    named_eq(s, f, c, g)
}

// The fields at two places of the tables: one of another id costs two reads.
pub fn row_eq(
    cat: &[u8],
    s: &[u8],
    haves: &[u8],
    from: usize,
    c: &[u8],
    wants: &[u8],
    at: usize,
) -> bool
    requires { FewFields s.now × FewFields c.now × (from + 16 ≤ length haves.now) × (at + 16 ≤ length wants.now) }
    ensures { result ≡ field_eq cat.now s.now (field_at haves.now from) c.now (field_at wants.now at) }
{
    if lent::u16_in(haves, from) != lent::u16_in(wants, at) {
        return false;
    }
    field_eq(
        cat,
        s,
        field::field_in(haves, from),
        c,
        field::field_in(wants, at),
    )
}
