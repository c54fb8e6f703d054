// Where things stand in a block, of any bytes.
ghost use Rattle.std.specs.Prelude.{◌≡◌, true, ℕ, List, ◌+◌, ◌*◌, ◌/◌, ◌<◌, ◌≤◌};
ghost use Rattle.lent.specs.Scan.{gather, places, every};
ghost use Rattle.layout.specs.Find.{near};
ghost use Rattle.layout.specs.Layout.{name_at, start_at, length_at, part_at, record_at, struct_at, head_size, count_of, record_head, heads, heads_from, table_at, limit_at, has_struct};

use field::{FieldDef, Holder};
use std::marker::Model;

// Bytes of the block's head, of a record's and of a struct's, and of a field name.
const HEAD: usize = 8;

pub const RECORD_HEAD: usize = 72;

pub const STRUCT_HEAD: usize = 48;

pub const NAME: usize = 33;

// Where a head begins, near enough that what it says lies below what a place may be.
#[derive(Clone, Copy, Debug, PartialEq, Eq)]
pub struct Head {
    at: usize,
}

impl Model for Head {
    ghost Value = { ℕ };

    ghost view = { λ head. head.at };

    ghost invariant = { λ head. head.at < 4000000000 };

    ghost inverse = { λ n. record { at = n } };
}

impl Head {
    // Of any block, one that has no head there too.
    pub fn from_place(at: usize) -> Head
        requires { at < 4000000000 }
        ensures { result ≡ at }
    {
        Head { at }
    }

    pub fn at(self) -> usize
        ensures { (result ≡ self) × (result < 4000000000) }
    {
        self.at
    }
}

// The heads of a block's records, or of its structs, one after the other.
#[derive(Drop)]
pub struct Heads {
    next: usize,
    step: usize,
    left: usize,
}

impl Model for Heads {
    ghost Value = { List ℕ };

    ghost view = { λ heads. places heads.step heads.next heads.left };

    ghost invariant = { λ heads. heads.next + heads.step * heads.left < 10000000 };
}

impl Iterator for Heads {
    ghost use Rattle.std.specs.Iterator.{YieldsFirst, item_count};

    type Item = Head;

    ghost next_gives = { YieldsFirst (λ heads. heads) };

    ghost remaining = { item_count (λ heads. heads) };

    fn next(&mut self) -> Option<Head> {
        if self.left == 0 {
            return None;
        }
        let head = Head { at: self.next };
        self.next += self.step;
        self.left -= 1;
        Some(head)
    }
}

// The names of a record's fields, one after the other.
#[derive(Drop)]
pub struct Names<'a> {
    l: &'a [u8],
    next: usize,
    left: usize,
}

impl<'a> Model for Names<'a> {
    ghost Value = { List (List ℕ) };

    ghost view = { λ names. gather (name_at names.l.now) 33 names.next names.left };

    ghost invariant = { λ names. names.next + 33 * names.left < 200000000000 };
}

impl<'a> Iterator for Names<'a> {
    ghost use Rattle.std.specs.Iterator.{YieldsFirstRef, item_count};

    type Item = &'a [u8];

    ghost next_gives = { YieldsFirstRef (λ names. names) };

    ghost remaining = { item_count (λ names. names) };

    fn next(&mut self) -> Option<&'a [u8]> {
        if self.left == 0 {
            return None;
        }
        let l = self.l;
        let at = self.next;
        self.next = at + NAME;
        self.left -= 1;
        Some(name_at(l, at))
    }
}

fn name_at(l: &[u8], at: usize) -> &[u8]
    requires { at < 200000000000 }
    ensures { result.now ≡ name_at l.now at }
{
    lent::window(l, at + 1, lent::wide8(lent::byte_at(l, at)))
}

// The bytes whose start and length stand at a place.
fn part_at(l: &[u8], at: usize) -> &[u8]
    requires { at < 4294967296 }
    ensures { result.now ≡ part_at l.now at }
{
    lent::part(l, lent::u32_at(l, at), lent::u32_at(l, at + 4))
}

// ---- the heads

pub fn head_size(holder: Holder) -> usize
    ensures { (result ≡ head_size holder) × (result ≤ 72) }
{
    match holder {
        Holder::Record => RECORD_HEAD,
        Holder::Struct => STRUCT_HEAD,
    }
}

pub fn count_of(holder: Holder, l: &[u8]) -> usize
    ensures { (result ≡ count_of holder l.now) × (result < 65536) }
{
    match holder {
        Holder::Record => lent::wide16(lent::u16_at(l, 0)),
        Holder::Struct => lent::wide16(lent::u16_at(l, 2)),
    }
}

pub fn heads_from(holder: Holder, l: &[u8]) -> usize
    ensures { (result ≡ heads_from holder l.now) × (result < 4718600) }
{
    match holder {
        Holder::Record => HEAD,
        Holder::Struct => HEAD + RECORD_HEAD * count_of(Holder::Record, l),
    }
}

pub fn heads_of(holder: Holder, l: &[u8]) -> Heads
    ensures heads { result ≡ heads holder l.now }
    ensures near { every near result ≡ true }
{
    Heads {
        next: heads_from(holder, l),
        step: head_size(holder),
        left: count_of(holder, l),
    }
}

// The head of record k.
pub fn record_head(k: usize) -> Head
    requires { k < 65536 }
    ensures { (result ≡ record_head k) × (result < 4718600) }
{
    Head {
        at: HEAD + RECORD_HEAD * k,
    }
}

// The head of the struct of a number, whether the block has so many or not.
pub fn struct_head(l: &[u8], k: u16) -> Head
    ensures { (result ≡ heads_from Holder.Struct l.now + 48 * k) × (result < 7864320) }
{
    Head {
        at: heads_from(Holder::Struct, l) + STRUCT_HEAD * lent::wide16(k),
    }
}

pub fn has_struct(l: &[u8], f: FieldDef) -> bool
    ensures { result ≡ has_struct l.now f }
{
    lent::wide16(f.def_index) < count_of(Holder::Struct, l)
}

// ---- what a head at h says

pub fn record_rtype(l: &[u8], h: Head) -> u16
    ensures { result ≡ (record_at l.now h).rtype }
{
    lent::u16_at(l, h.at())
}

pub fn record_schema(l: &[u8], h: Head) -> u16
    ensures { result ≡ (record_at l.now h).schema }
{
    lent::u16_at(l, h.at() + 2)
}

pub fn record_base(l: &[u8], h: Head) -> usize
    ensures { result ≡ (record_at l.now h).base }
{
    lent::u32_at(l, h.at() + 4)
}

// The stored layout hash.
pub fn record_hash(l: &[u8], h: Head) -> u64
    ensures { result ≡ (record_at l.now h).hash }
{
    let low = h.at() + 8;
    let high = low + 4;
    (lent::u32_at(l, low) + 4294967296 * lent::u32_at(l, high)) as u64
}

// Where the field names of a record begin, and how many there are.
pub fn names_from(l: &[u8], h: Head) -> usize
    ensures { (result ≡ start_at l.now (h + 24)) × (result < 4294967296) }
{
    lent::u32_at(l, h.at() + 24)
}

pub fn names_count(l: &[u8], h: Head) -> usize
    ensures { (result ≡ length_at l.now (h + 24) / 33) × (result < 4294967296) }
{
    let at = h.at() + 24;
    lent::u32_at(l, at + 4) / NAME
}

pub fn names_of(l: &[u8], h: Head) -> Names<'_>
    ensures { result ≡ (record_at l.now h).names }
{
    Names {
        l,
        next: names_from(l, h),
        left: names_count(l, h),
    }
}

// The name of the record itself.
pub fn record_name(l: &[u8], h: Head) -> &[u8]
    ensures { result.now ≡ (record_at l.now h).name }
{
    name_at(l, h.at() + 32)
}

pub fn struct_size(l: &[u8], h: Head) -> usize
    ensures { result ≡ (struct_at l.now h).size }
{
    lent::u32_at(l, h.at())
}

pub fn table_at(holder: Holder, l: &[u8], h: Head) -> &[u8]
    ensures { result.now ≡ table_at holder l.now h }
{
    match holder {
        Holder::Record => part_at(l, h.at() + 16),
        Holder::Struct => part_at(l, h.at() + 4),
    }
}

pub fn limit_at(holder: Holder, l: &[u8], h: Head) -> usize
    ensures { result ≡ limit_at holder l.now h }
{
    match holder {
        Holder::Record => limits::MAX_BYTES,
        Holder::Struct => struct_size(l, h),
    }
}
