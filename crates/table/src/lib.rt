// Refusals 3 to 6 of one table.
#![tactic(auto)]

ghost use Rattle.std.specs.Prelude.{◌≡◌, map};
ghost use Rattle.lent.specs.Scan.{every};
ghost use Rattle.field.specs.Field.{field_at, fields_of};
ghost use Rattle.table_rules.specs.Table.{reserved_zero, share_byte, clear_of, apart, width_ok, table_ok};
ghost use Rattle.table_rules.specs.Parts.{field_ok, chain, alone, tidy};

use field::FieldDef;
use field::rows::rows_of;
use table_rules::Rule;

// ---- field by field

fn width_ok(cat: &[u8], f: FieldDef) -> bool
    ensures { result ≡ width_ok cat.now f }
{
    !field::is_plain_integer(cat, f) | (f.size == u16::from(catalogue::width_of(cat, f.type_id)))
}

fn field_ok(rule: Rule, cat: &[u8], most: usize, f: FieldDef) -> bool
    ensures { result ≡ field_ok rule cat.now most f }
{
    match rule {
        Rule::Reserved => f.reserved == 0,
        Rule::Bounds => (0 < f.size) & (field::end_of(f) <= most),
        Rule::Apart => true,
        Rule::Width => width_ok(cat, f),
    }
}

fn fields_ok(rule: Rule, cat: &[u8], most: usize, t: &[u8]) -> bool
    ensures { result ≡ every (field_ok rule cat.now most) (fields_of t.now) }
{
    rows_of(t).all(|f| field_ok(rule, cat, most, f))
}

// Refusal 3 alone: the rule reads neither catalogue nor limit.
pub fn reserved_ok(t: &[u8]) -> bool
    ensures { result ≡ every reserved_zero (fields_of t.now) }
{
    fields_ok(Rule::Reserved, t, 0, t)
}

// ---- each with each

fn share_byte(f: FieldDef, g: FieldDef) -> bool
    ensures { result ≡ share_byte f g }
{
    usize::from(f.offset.max(g.offset)) < field::end_of(f).min(field::end_of(g))
}

// Does f share no byte with any field of a table?
fn clear_of(f: FieldDef, t: &[u8]) -> bool
    ensures { result ≡ every (clear_of f) (fields_of t.now) }
{
    rows_of(t).all(|g| !share_byte(f, g))
}

fn pairs_ok(t: &[u8]) -> bool
    ensures { result ≡ apart (fields_of t.now) }
{
    let mut rows = rows_of(t);
    while let Some(f) = rows.next() {
        if !clear_of(f, rows.rest) {
            return false;
        }
    }
    true
}

// ---- in offset order: fields that follow each other share no byte

// Do the fields at these places follow each other?
fn chain_ok(t: &[u8], order: &[u16]) -> bool
    ensures { result ≡ chain 0 (map (field_at t.now) order.now) }
{
    let mut low = 0;
    for place in order {
        let from = field::order::offset_at(t, *place);
        if from < low {
            return false;
        }
        low = from + field::order::size_at(t, *place);
    }
    true
}

// Fast where the fields follow each other; only where they do not, each with each decides.
fn apart_ok(t: &[u8]) -> bool
    ensures { result ≡ apart (fields_of t.now) }
{
    let n = t.len() / field::SIZE;
    if n <= limits::MAX_FIELDS {
        let mut order = [0u16; limits::MAX_FIELDS];
        field::order::by_offset(t, n, &mut order);
        if chain_ok(t, &order[..n]) {
            return true;
        }
    }
    pairs_ok(t)
}

pub fn table_ok(rule: Rule, cat: &[u8], most: usize, t: &[u8]) -> bool
    ensures { result ≡ table_ok rule cat.now most (fields_of t.now) }
{
    match rule {
        Rule::Apart => apart_ok(t),
        Rule::Reserved | Rule::Bounds | Rule::Width => fields_ok(rule, cat, most, t),
    }
}

// ---- every rule in one pass: enough for fields that follow each other as they stand

fn alone_ok(cat: &[u8], most: usize, f: FieldDef) -> bool
    ensures { result ≡ alone cat.now most f }
{
    field_ok(Rule::Reserved, cat, most, f)
        & (field_ok(Rule::Bounds, cat, most, f) & field_ok(Rule::Width, cat, most, f))
}

pub fn tidy_ok(cat: &[u8], most: usize, t: &[u8]) -> bool
    ensures { result ≡ tidy cat.now most 0 (fields_of t.now) }
{
    let mut low = 0;
    for f in rows_of(t) {
        if !((low <= usize::from(f.offset)) & alone_ok(cat, most, f)) {
            return false;
        }
        low = field::end_of(f);
    }
    true
}
