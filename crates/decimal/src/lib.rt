// Numbers as decimal text, both ways. A writer stores from `at` on and answers the place behind; a reader takes what stands from
// `at` on, whatever it is.
#![tactic(auto)]

pub mod hexes;

ghost use Rattle.std.specs.Prelude.{◌≡◌, ◌+◌, ◌<◌, ◌≤◌, [], ◌∷◌, length, drop};
ghost use Rattle.decimal.specs.Put.{Put};
ghost use Rattle.decimal.specs.Decimal.{place, decimal, cell, head, is_digit, pushed};
ghost use Rattle.decimal.specs.Taken.{Taken, Skipped};

// ---- writing

pub fn put_byte(b: u8, out: &mut [u8], at: usize) -> usize
    requires { at < length out.old }
    ensures { Put out.old at (b ∷ []) out.new result }
{
    out[at] = b;
    at + 1
}

// All of s.
pub fn put_all(s: &[u8], out: &mut [u8], at: usize) -> usize
    requires { at + length s.now ≤ length out.old }
    ensures { Put out.old at s.now out.new result }
{
    lent::store::copy(s, 0, out, at, s.len());
    at + s.len()
}

fn put_place(n: u16, unit: u16, out: &mut [u8], at: usize) -> usize
    requires { (0 < unit) × (at + length (place unit n) ≤ length out.old) }
    ensures { Put out.old at (place unit n) out.new result }
{
    if unit <= n {
        return put_byte(b'0' + (n / unit % 10) as u8, out, at);
    }
    at
}

fn put_decimal(n: u16, out: &mut [u8], at: usize) -> usize
    requires { at + length (decimal n) ≤ length out.old }
    ensures { Put out.old at (decimal n) out.new result }
{
    let a = put_place(n, 10000, out, at);
    let b = put_place(n, 1000, out, a);
    let c = put_place(n, 100, out, b);
    let d = put_place(n, 10, out, c);
    put_byte(b'0' + (n % 10) as u8, out, d)
}

// A number and the character that ends it.
pub fn put_cell(n: u16, end: u8, out: &mut [u8], at: usize) -> usize
    requires { at + length (cell n end) ≤ length out.old }
    ensures { Put out.old at (cell n end) out.new result }
{
    let behind = put_decimal(n, out, at);
    put_byte(end, out, behind)
}

fn digits_at(n: u16, unit: u16) -> usize
    ensures { (result ≡ length (place unit n)) × (result ≤ 1) }
{
    if n < unit { 0 } else { 1 }
}

// How many characters a cell takes.
pub fn cell_length(n: u16) -> usize
    ensures { (result ≡ length (decimal n) + 1) × (result ≤ 6) }
{
    digits_at(n, 10000) + (digits_at(n, 1000) + (digits_at(n, 100) + (digits_at(n, 10) + 2)))
}

// ---- reading

// The character at `at`, 0 past the end.
pub fn first(text: &[u8], at: usize) -> u8
    ensures { result ≡ head (drop at text.now) }
{
    lent::byte_at(text, at)
}

// The place n characters on, or the end where that is past it.
pub fn skip(text: &[u8], at: usize, n: usize) -> usize
    requires { at ≤ length text.now }
    ensures { Skipped text.now at n result }
{
    if text.len() - at < n {
        return text.len();
    }
    at + n
}

fn push(v: u16, c: u8) -> u16
    ensures { result ≡ pushed v c }
{
    let more = v as u32 * 10 + (c % 16) as u32;
    u16::try_from(more).unwrap_or(u16::MAX)
}

#[derive(Clone, Copy, Debug, PartialEq, Eq)]
pub struct Number {
    pub value: u16,
    pub next: usize,
}

// The number at `at`, no more than 65,535, and the place behind the character that ends it.
pub fn take_number(text: &[u8], at: usize) -> Number
    requires { at ≤ length text.now }
    ensures { Taken text.now at result.value result.next }
{
    let mut value: u16 = 0;
    for i in at..text.len() {
        if !text[i].is_ascii_digit() {
            return Number { value, next: i + 1 };
        }
        value = push(value, text[i]);
    }
    Number {
        value,
        next: text.len(),
    }
}
