// The lookups of dbn's index.rs: scans, no table is built.
#![tactic(auto)]

ghost use Rattle.std.specs.Prelude.{◌≡◌, ◌&&◌, not, eqb, Some};
ghost use Rattle.lent.specs.Scan.{last, alike};
ghost use Rattle.field.specs.Field.{fields_of, is_padding};
ghost use Rattle.layout.specs.Layout.{name_at, record_at};
ghost use Rattle.index_rules.specs.Index.{fields_if_of, has_id, by_id, name_in, by_name};

use field::rows::rows_of;
use field::{FieldDef, Holder};
use layout::block::Head;
use layout::{block, find};

// A field with the id that isn't padding.
fn has_id(cat: &[u8], f: FieldDef, id: u16) -> bool
    ensures { result ≡ has_id cat.now id f }
{
    f.field_id == id && !field::is_padding(cat, f)
}

// The last such field of a table, else what was found before.
fn last_in(cat: &[u8], t: &[u8], id: u16, before: Option<FieldDef>) -> Option<FieldDef>
    ensures { result ≡ last (has_id cat.now id) Some before (fields_of t.now) }
{
    let mut found = before;
    for f in rows_of(t) {
        if has_id(cat, f, id) {
            found = Some(f);
        }
    }
    found
}

// The same of the record whose head is h, if it is of the rtype.
fn last_of_record(
    cat: &[u8],
    l: &[u8],
    h: Head,
    rtype: u16,
    id: u16,
    before: Option<FieldDef>,
) -> Option<FieldDef>
    ensures { result ≡ last (has_id cat.now id) Some before (fields_if_of rtype (record_at l.now h)) }
{
    if find::is_of(l, rtype, h) {
        return last_in(cat, block::table_at(Holder::Record, l, h), id, before);
    }
    before
}

pub fn field_by_id(cat: &[u8], l: &[u8], rtype: u16, id: u16) -> Option<FieldDef>
    ensures { result ≡ by_id cat.now l.now rtype id }
{
    let mut found = None;
    for h in block::heads_of(Holder::Record, l) {
        found = last_of_record(cat, l, h, rtype, id, found);
    }
    found
}

// A field with that name that isn't padding.
fn has_name(cat: &[u8], f: FieldDef, name: &[u8], wanted: &[u8]) -> bool
    ensures { result ≡ (alike eqb name.now wanted.now && not (is_padding cat.now f)) }
{
    lent::same(name, wanted) && !field::is_padding(cat, f)
}

// The first field with the name, that isn't padding, of the record whose head is h.
fn name_in(cat: &[u8], l: &[u8], h: Head, wanted: &[u8]) -> Option<FieldDef>
    ensures { result ≡ name_in cat.now wanted.now (record_at l.now h) }
{
    let mut names = block::names_of(l, h);
    for f in rows_of(block::table_at(Holder::Record, l, h)) {
        let name = names.next()?;
        if has_name(cat, f, name, wanted) {
            return Some(f);
        }
    }
    None
}

pub fn field_by_name(cat: &[u8], l: &[u8], rtype: u16, name: &[u8]) -> Option<FieldDef>
    ensures { result ≡ by_name cat.now l.now rtype name.now }
{
    let h = find::first_of(l, rtype)?;
    let named = name_in(cat, l, h, name)?;
    field_by_id(cat, l, rtype, named.field_id)
}
