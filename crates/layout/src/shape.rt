// Refusal 2: counts, names, parts and sizes of a block.
ghost use Rattle.std.specs.Prelude.{◌≡◌, ◌+◌, ◌*◌, ◌/◌, ◌<◌};
ghost use Rattle.lent.specs.Scan.{places, every};
ghost use Rattle.layout.specs.Layout.{heads};
ghost use Rattle.layout.specs.Shape.{name_ok, part_ok, table_shape, names_match, names_shape, record_shape, struct_shape, head_shape, counts_ok, shape_ok};

use crate::block;
use crate::block::Head;
use field::Holder;

fn name_ok(l: &[u8], at: usize) -> bool
    ensures { result ≡ name_ok l.now at }
{
    lent::wide8(lent::byte_at(l, at)) <= limits::MAX_NAME
}

fn names_ok(l: &[u8], from: usize, n: usize) -> bool
    requires { (from < 4294967296) × (n < 4294967296) }
    ensures { result ≡ every (name_ok l.now) (places 33 from n) }
{
    for k in 0..n {
        if !name_ok(l, from + block::NAME * k) {
            return false;
        }
    }
    true
}

fn part_ok(l: &[u8], at: usize) -> bool
    requires { at < 4294967296 }
    ensures { result ≡ part_ok l.now at }
{
    lent::has_window(l, lent::u32_at(l, at), lent::u32_at(l, at + 4))
}

fn table_shape(l: &[u8], at: usize, most: usize) -> bool
    requires { (at < 4294967296) × (most < 65536) }
    ensures { result ≡ table_shape l.now at most }
{
    let n = lent::u32_at(l, at + 4);
    part_ok(l, at) & ((n % field::SIZE == 0) & (n <= field::SIZE * most))
}

fn names_match(l: &[u8], at: usize) -> bool
    requires { at < 4000000100 }
    ensures { result ≡ names_match l.now at }
{
    let fields = lent::u32_at(l, at + 4) / field::SIZE;
    let names = at + 8;
    part_ok(l, names) & (lent::u32_at(l, names + 4) == block::NAME * fields)
}

// The names are read only where there are as many as fields: a length of any size costs nothing.
fn names_shape(l: &[u8], at: usize) -> bool
    requires { at < 4000000100 }
    ensures { result ≡ names_shape l.now at }
{
    if !names_match(l, at) {
        return false;
    }
    let fields = lent::u32_at(l, at + 4) / field::SIZE;
    names_ok(l, lent::u32_at(l, at + 8), fields)
}

fn record_shape(l: &[u8], h: Head) -> bool
    ensures { result ≡ record_shape l.now h }
{
    let at = h.at();
    let base = block::record_base(l, h);
    (base <= limits::MAX_BYTES)
        & (name_ok(l, at + 32)
            & (table_shape(l, at + 16, limits::MAX_FIELDS) & names_shape(l, at + 16)))
}

fn struct_shape(l: &[u8], h: Head) -> bool
    ensures { result ≡ struct_shape l.now h }
{
    let at = h.at();
    let size = block::struct_size(l, h);
    (size <= limits::MAX_BYTES)
        & (name_ok(l, at + 12) & table_shape(l, at + 4, limits::MAX_STRUCT_FIELDS))
}

fn head_shape(holder: Holder, l: &[u8], h: Head) -> bool
    ensures { result ≡ head_shape holder l.now h }
{
    match holder {
        Holder::Record => record_shape(l, h),
        Holder::Struct => struct_shape(l, h),
    }
}

fn heads_shape(holder: Holder, l: &[u8]) -> bool
    ensures { result ≡ every (head_shape holder l.now) (heads holder l.now) }
{
    block::heads_of(holder, l).all(|h| head_shape(holder, l, h))
}

fn counts_ok(l: &[u8]) -> bool
    ensures { result ≡ counts_ok l.now }
{
    let records = block::count_of(Holder::Record, l);
    let structs = block::count_of(Holder::Struct, l);
    let end = block::heads_from(Holder::Struct, l) + block::STRUCT_HEAD * structs;
    (records <= limits::MAX_RECORDS) & ((structs <= limits::MAX_STRUCTS) & (end <= l.len()))
}

// Heads are read only where there are few: counts of any size cost nothing.
pub fn shape_ok(l: &[u8]) -> bool
    ensures { result ≡ shape_ok l.now }
{
    if !counts_ok(l) {
        return false;
    }
    heads_shape(Holder::Record, l) & heads_shape(Holder::Struct, l)
}
