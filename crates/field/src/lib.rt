// FieldDef of dbn's layout.rs: a field of a table, decoded from its 16 bytes.
#![tactic(auto)]

pub mod order;
pub mod pair;
pub mod rows;

ghost use Rattle.std.specs.Prelude.{◌≡◌, ◌+◌, ◌*◌, ◌<◌, ◌≤◌, length};
ghost use Rattle.lent.specs.Bytes.{number_at};
ghost use Rattle.field.specs.Field.{signed_byte, byte_of, field_at, end_of, is_integer, is_array, is_plain_integer, is_struct, is_padding, counts, is_string, is_signed};

// Bytes of a field in its table.
pub const SIZE: usize = 16;

#[derive(Clone, Copy)]
pub struct FieldDef {
    pub field_id: u16,
    pub offset: u16,
    pub size: u16,
    pub type_id: u8,
    pub flags: u8,
    pub def_index: u16,
    pub scale: i8,
    // The number of the five last bytes, which an admitted table has at zero.
    pub reserved: usize,
}

// What a table of fields belongs to.
#[derive(Clone, Copy)]
pub enum Holder {
    Record,
    Struct,
}

fn reserved_in(t: &[u8], at: usize) -> usize
    requires { at + 5 ≤ length t.now }
    ensures { result ≡ number_at t.now at 5 }
{
    let middle = at + 2;
    let last = middle + 2;
    let high = lent::wide16(lent::u16_in(t, middle)) + 65536 * lent::wide8(t[last]);
    lent::wide16(lent::u16_in(t, at)) + 65536 * high
}

fn signed_byte(b: u8) -> i8
    ensures { result ≡ signed_byte b }
{
    if b < 128 {
        return b as i8;
    }
    ((b as i16) - 256) as i8
}

pub fn field_in(t: &[u8], at: usize) -> FieldDef
    requires { at + 16 ≤ length t.now }
    ensures { result ≡ field_at t.now at }
{
    FieldDef {
        field_id: lent::u16_in(t, at),
        offset: lent::u16_in(t, at + 2),
        size: lent::u16_in(t, at + 4),
        type_id: t[at + 6],
        flags: t[at + 7],
        def_index: lent::u16_in(t, at + 8),
        scale: signed_byte(t[at + 10]),
        reserved: reserved_in(t, at + 11),
    }
}

fn reserved_at(t: &[u8], at: usize) -> usize
    requires { at < 8589934592 }
    ensures { result ≡ number_at t.now at 5 }
{
    let last = at + 4;
    lent::u32_at(t, at) + 4294967296 * lent::wide8(lent::byte_at(t, last))
}

// The field at a place that may lie outside, where the missing bytes are zero: for places that come out of an order.
pub fn field_at(t: &[u8], at: usize) -> FieldDef
    requires { at < 65536 }
    ensures { result ≡ field_at t.now at }
{
    if at + SIZE <= t.len() {
        return field_in(t, at);
    }
    FieldDef {
        field_id: lent::u16_at(t, at),
        offset: lent::u16_at(t, at + 2),
        size: lent::u16_at(t, at + 4),
        type_id: lent::byte_at(t, at + 6),
        flags: lent::byte_at(t, at + 7),
        def_index: lent::u16_at(t, at + 8),
        scale: signed_byte(lent::byte_at(t, at + 10)),
        reserved: reserved_at(t, at + 11),
    }
}

// A scale's byte, in two's complement.
pub fn scale_byte(scale: i8) -> u8
    ensures { result ≡ byte_of scale }
{
    if scale < 0 {
        return ((scale as i16) + 256) as u8;
    }
    scale as u8
}

pub fn end_of(f: FieldDef) -> usize
    ensures { (result ≡ end_of f) × (result < 131072) }
{
    lent::wide16(f.offset) + lent::wide16(f.size)
}

pub fn is_integer(cat: &[u8], f: FieldDef) -> bool
    ensures { result ≡ is_integer cat.now f }
{
    let class = catalogue::class_of(cat, f.type_id);
    (class == catalogue::UNSIGNED) | (class == catalogue::SIGNED)
}

pub fn is_array(cat: &[u8], f: FieldDef) -> bool
    ensures { result ≡ is_array cat.now f }
{
    f.flags & catalogue::array_flag(cat) != 0
}

pub fn is_plain_integer(cat: &[u8], f: FieldDef) -> bool
    ensures { result ≡ is_plain_integer cat.now f }
{
    is_integer(cat, f) & !is_array(cat, f)
}

pub fn is_struct(cat: &[u8], f: FieldDef) -> bool
    ensures { result ≡ is_struct cat.now f }
{
    catalogue::class_of(cat, f.type_id) == catalogue::STRUCT
}

pub fn is_padding(cat: &[u8], f: FieldDef) -> bool
    ensures { result ≡ is_padding cat.now f }
{
    catalogue::class_of(cat, f.type_id) == catalogue::PADDING
}

pub fn counts(cat: &[u8], f: FieldDef) -> bool
    ensures { result ≡ counts cat.now f }
{
    !is_padding(cat, f) & !(f.field_id == catalogue::header_id(cat))
}

pub fn is_string(cat: &[u8], f: FieldDef) -> bool
    ensures { result ≡ is_string cat.now f }
{
    catalogue::class_of(cat, f.type_id) == catalogue::STRING
}

pub fn is_signed(cat: &[u8], f: FieldDef) -> bool
    ensures { result ≡ is_signed cat.now f }
{
    catalogue::class_of(cat, f.type_id) == catalogue::SIGNED
}
