// The target's header and its default body, before anything is planned: refusals 7 and 8.
#![tactic(auto)]

ghost use Rattle.std.specs.Prelude.{◌≡◌, cond, ◌+◌, ◌*◌, ◌≤◌, ◌<◌, length};
ghost use Rattle.limits.specs.Limits.{max_bytes, max_fields};
ghost use Rattle.lent.specs.Scan.{every};
ghost use Rattle.field.specs.Field.{fields_of};
ghost use Rattle.plan_rules.specs.Rule.{wants};
ghost use Rattle.defaults.specs.Defaults.{starts_after, header_ok, gaps_zero, is_largest, mark_holds, defaults_ok, cover_end};

use field::FieldDef;
use field::rows::rows_of;
use lent::words;
use plan::rule;
use plan_rules::Want;

fn starts_after(cat: &[u8], header: usize, f: FieldDef) -> bool
    ensures { result ≡ starts_after cat.now header f }
{
    !field::counts(cat, f) | (header <= usize::from(f.offset))
}

fn all_start_after(cat: &[u8], header: usize, table: &[u8]) -> bool
    ensures { result ≡ every (starts_after cat.now header) (fields_of table.now) }
{
    rows_of(table).all(|f| starts_after(cat, header, f))
}

// Refusal 7 is given exactly when this is false.
pub fn header_ok(cat: &[u8], header: usize, size: usize, table: &[u8]) -> bool
    ensures { result ≡ header_ok cat.now header size (fields_of table.now) }
{
    (header <= limits::MAX_HEADER) & (header <= size) && all_start_after(cat, header, table)
}

// Where the field that holds byte i of the record ends, or i where none does.
fn cover_end(cat: &[u8], table: &[u8], i: usize) -> usize
    requires { i < 65536 }
    ensures { (result ≡ cover_end cat.now (fields_of table.now) i) × (result < 131072) }
{
    for f in rows_of(table) {
        let start = usize::from(f.offset);
        let end = field::end_of(f);
        if field::counts(cat, f) & ((start <= i) & (i < end)) {
            return end;
        }
    }
    i
}

// Zeros are passed over, eight at once where they can be, and so is the rest of a field that holds a byte: steps of
// three lengths, which no iterator takes.
fn gaps_zero(cat: &[u8], table: &[u8], header: usize, body: &[u8]) -> bool
    requires { header + length body.now ≤ max_bytes }
    ensures { result ≡ gaps_zero cat.now (fields_of table.now) header body.now }
{
    let mut i = 0;
    while i < body.len() {
        if 8 <= body.len() - i && words::eight_in(body, i) == 0 {
            i += 8;
            continue;
        }
        if body[i] == 0 {
            i += 1;
            continue;
        }
        let end = cover_end(cat, table, header + i);
        if end <= header + i {
            return false;
        }
        i = end - header;
    }
    true
}

// The last byte of a signed integer holds its sign.
fn largest_byte(halved: bool) -> u8
    ensures { result ≡ cond halved 127 255 }
{
    if halved { 127 } else { 255 }
}

fn is_largest(body: &[u8], from: usize, n: usize, signed: bool) -> bool
    requires { (from < 65536) × (n < 65536) }
    ensures { result ≡ is_largest body.now from n signed }
{
    for i in 0..n {
        if lent::byte_at(body, from + i) != largest_byte(signed & (i + 1 == n)) {
            return false;
        }
    }
    true
}

fn mark_holds(cat: &[u8], header: usize, body: &[u8], want: Want) -> bool
    ensures { result ≡ mark_holds cat.now header body.now want }
{
    if !(want.marked && field::counts(cat, want.def)) {
        return true;
    }
    let from = usize::from(want.def.offset).saturating_sub(header);
    is_largest(
        body,
        from,
        usize::from(want.def.size),
        field::is_signed(cat, want.def),
    )
}

fn marks_hold(cat: &[u8], header: usize, body: &[u8], marks: &[u8], table: &[u8]) -> bool
    ensures { result ≡ every (mark_holds cat.now header body.now) (wants cat.now marks.now table.now) }
{
    for k in 0..table.len() / field::SIZE {
        let want = rule::want_at(cat, marks, table, field::SIZE * k);
        if !mark_holds(cat, header, body, want) {
            return false;
        }
    }
    true
}

// Refusal 8 is given exactly when this is false. The parts come one by one: gaps ask for no marks, a mark for no table.
pub fn defaults_ok(
    cat: &[u8],
    header: usize,
    size: usize,
    table: &[u8],
    marks: &[u8],
    body: &[u8],
) -> bool
    requires { (header ≤ size) × (size ≤ max_bytes) × (length table.now ≤ 16 * max_fields) }
    ensures { result ≡ defaults_ok cat.now header size (fields_of table.now) (wants cat.now marks.now table.now) body.now }
{
    if body.len() != size - header {
        return false;
    }
    gaps_zero(cat, table, header, body) && marks_hold(cat, header, body, marks, table)
}
