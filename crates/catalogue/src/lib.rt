// The catalogue of type ids: 262 lent bytes (docs/FORMATS.md).
#![tactic(auto)]

ghost use Rattle.std.specs.Prelude.{◌≡◌, cond, ◌+◌, ◌*◌, ◌/◌, ◌<◌, ◌≤◌, min, length, eqb};
ghost use Rattle.lent.specs.Bytes.{byte_at};
ghost use Rattle.lent.specs.Scan.{gather, every, tally};
ghost use Rattle.catalogue.specs.Catalogue.{class_of, width_of, array_flag, extension_flag, header_id, padding_id, id_of, kinds, is_width, is_bit, kind_ok, within, count, count_class, one_each, others_ok, flags_ok, catalogue_ok};

pub const SIZE: usize = 262;

const IDS: usize = 256;

const HALF: usize = 128;
// Where the flags stand.
const ARRAY_FLAG: usize = 256;

const EXTENSION_FLAG: usize = 257;

const HEADER_ID: usize = 258;

const PADDING_ID: usize = 260;

const LAST_ID: u8 = 255;

// The classes: numbers and no enum, since the high half of a lent byte may be 7 to 15 too, and such a class is only ever compared.
pub const OTHER: u8 = 0;

pub const UNSIGNED: u8 = 1;

pub const SIGNED: u8 = 2;

pub const DECIMAL: u8 = 3;

pub const STRING: u8 = 4;

pub const STRUCT: u8 = 5;

pub const PADDING: u8 = 6;

// ---- what stands where, of any bytes

fn kind_of(cat: &[u8], id: u8) -> u8
    ensures { result ≡ byte_at cat.now id }
{
    lent::byte_at(cat, lent::wide8(id))
}

pub fn class_of(cat: &[u8], id: u8) -> u8
    ensures { result ≡ class_of cat.now id }
{
    kind_of(cat, id) / 16
}

pub fn width_of(cat: &[u8], id: u8) -> u8
    ensures { result ≡ width_of cat.now id }
{
    kind_of(cat, id) % 16
}

pub fn array_flag(cat: &[u8]) -> u8
    ensures { result ≡ array_flag cat.now }
{
    lent::byte_at(cat, ARRAY_FLAG)
}

pub fn extension_flag(cat: &[u8]) -> u8
    ensures { result ≡ extension_flag cat.now }
{
    lent::byte_at(cat, EXTENSION_FLAG)
}

// The padding field id.
pub fn padding_id(cat: &[u8]) -> u16
    ensures { result ≡ padding_id cat.now }
{
    lent::u16_at(cat, PADDING_ID)
}

// ---- the first id of a class; 255 where none before it is

// One by one, of any bytes.
fn search_id(cat: &[u8], class: u8) -> u8
    ensures { result ≡ id_of cat.now class }
{
    for id in 0..LAST_ID {
        if class_of(cat, id) == class {
            return id;
        }
    }
    LAST_ID
}

fn id_if(kind: u8, class: u8, id: u8) -> u8
    ensures { result ≡ cond (eqb (kind / 16) class) id 255 }
{
    if kind / 16 == class { id } else { LAST_ID }
}

// No way out before the end, for the same reason as in `kinds_ok`.
fn least_id(cat: &[u8], class: u8) -> u8
    requires { 256 ≤ length cat.now }
    ensures { result ≡ id_of cat.now class }
{
    let mut best: u8 = LAST_ID;
    for (id, kind) in cat[..IDS].iter().enumerate() {
        best = best.min(id_if(*kind, class, id as u8));
    }
    best
}

pub fn id_of(cat: &[u8], class: u8) -> u8
    ensures { result ≡ id_of cat.now class }
{
    if cat.len() < IDS {
        return search_id(cat, class);
    }
    least_id(cat, class)
}

// The header's field id.
pub fn header_id(cat: &[u8]) -> u16
    ensures { result ≡ header_id cat.now }
{
    lent::u16_at(cat, HEADER_ID)
}

// ---- refusal 1

fn is_width(n: u8) -> bool
    ensures { result ≡ is_width n }
{
    (n == 1) | ((n == 2) | ((n == 4) | (n == 8)))
}

fn is_bit(b: u8) -> bool
    ensures { result ≡ is_bit b }
{
    ((b == 1) | ((b == 2) | ((b == 4) | (b == 8))))
        | ((b == 16) | ((b == 32) | ((b == 64) | (b == 128))))
}

fn kind_ok(kind: u8) -> bool
    ensures { result ≡ kind_ok kind }
{
    let class = kind / 16;
    let width = kind % 16;
    ((class <= DECIMAL) & is_width(width))
        | ((width == 0) & ((class == OTHER) | ((DECIMAL < class) & (class <= PADDING))))
}

// No way out before the end: so it compiles to many ids at a time. The length of what is lent, a slice, is tested once, in `catalogue_ok`.
fn kinds_ok(cat: &[u8]) -> bool
    requires { length cat.now ≡ 262 }
    ensures { result ≡ every kind_ok (kinds cat.now) }
{
    let mut good = true;
    for kind in &cat[..IDS] {
        good = good & kind_ok(*kind);
    }
    good
}

// How many of the 128 ids from `from` on have a kind from low to high: few enough for a byte, which compiles to sixteen ids at a time.
fn count_half(cat: &[u8], from: usize, low: u8, high: u8) -> u8
    requires { from + 128 ≤ length cat.now }
    ensures { result ≡ tally (within low high) (gather (byte_at cat.now) 1 from 128) }
{
    let mut n: u8 = 0;
    for kind in &cat[from..from + HALF] {
        n += lent::one((low <= *kind) & (*kind <= high));
    }
    n
}

fn count(cat: &[u8], low: u8, high: u8) -> usize
    requires { length cat.now ≡ 262 }
    ensures { result ≡ count cat.now low high }
{
    lent::wide8(count_half(cat, 0, low, high)) + lent::wide8(count_half(cat, HALF, low, high))
}

fn one_of(cat: &[u8], kind: u8) -> bool
    requires { length cat.now ≡ 262 }
    ensures { result ≡ eqb (count cat.now kind kind) 1 }
{
    count(cat, kind, kind) == 1
}

fn one_each(cat: &[u8], class: u8) -> bool
    requires { (length cat.now ≡ 262) × (class ≤ 6) }
    ensures { result ≡ one_each cat.now class }
{
    let kind = 16 * class;
    one_of(cat, kind + 1)
        & (one_of(cat, kind + 2) & (one_of(cat, kind + 4) & one_of(cat, kind + 8)))
}

fn count_class(cat: &[u8], class: u8) -> usize
    requires { (length cat.now ≡ 262) × (class ≤ 6) }
    ensures { result ≡ count_class cat.now class }
{
    let kind = 16 * class;
    count(cat, kind, kind + 15)
}

fn others_ok(cat: &[u8]) -> bool
    requires { length cat.now ≡ 262 }
    ensures { result ≡ others_ok cat.now }
{
    (count_class(cat, DECIMAL) == 1)
        & ((count_class(cat, STRING) == 2)
            & ((count_class(cat, STRUCT) == 1) & (count_class(cat, PADDING) == 1)))
}

fn flags_ok(array: u8, extension: u8) -> bool
    ensures { result ≡ flags_ok array extension }
{
    is_bit(array) & (is_bit(extension) & (array != extension))
}

pub fn catalogue_ok(cat: &[u8]) -> bool
    ensures { result ≡ catalogue_ok cat.now }
{
    if cat.len() != SIZE {
        return false;
    }
    flags_ok(cat[ARRAY_FLAG], cat[EXTENSION_FLAG])
        & (kinds_ok(cat) & (one_each(cat, UNSIGNED) & (one_each(cat, SIGNED) & others_ok(cat))))
}
