// Two fields of one id, one of each table: how far they are alike.
ghost use Rattle.std.specs.Prelude.{◌≡◌};
ghost use Rattle.field.specs.Pair.{same_scale, same_arrayness, same_kind, apart, same_sign};

use crate::FieldDef;

fn same_arrayness(cat: &[u8], have: FieldDef, want: FieldDef) -> bool
    ensures { result ≡ same_arrayness cat.now have want }
{
    if crate::is_array(cat, have) {
        return crate::is_array(cat, want);
    }
    !crate::is_array(cat, want)
}

fn same_scale(have: FieldDef, want: FieldDef) -> bool
    ensures { result ≡ same_scale have want }
{
    have.scale == want.scale
}

pub fn same_kind(cat: &[u8], have: FieldDef, want: FieldDef) -> bool
    ensures { result ≡ same_kind cat.now have want }
{
    (have.size == want.size)
        & ((have.type_id == want.type_id)
            & (same_scale(have, want) & same_arrayness(cat, have, want)))
}

pub fn apart(cat: &[u8], have: FieldDef, want: FieldDef) -> bool
    ensures { result ≡ apart cat.now have want }
{
    !same_scale(have, want) | (crate::is_array(cat, have) | crate::is_array(cat, want))
}

pub fn same_sign(cat: &[u8], have: FieldDef, want: FieldDef) -> bool
    ensures { result ≡ same_sign cat.now have want }
{
    let same = catalogue::class_of(cat, have.type_id) == catalogue::class_of(cat, want.type_id);
    crate::is_integer(cat, have) & same
}
