// Reads of lent bytes that need no promise of the caller: past the end there is a zero, and a part that does not lie
// inside is empty.
#![tactic(auto)]

pub mod store;
pub mod words;

ghost use Rattle.std.specs.Prelude.{◌≡◌, ◌+◌, ◌*◌, ◌<◌, ◌≤◌, min, max, length, eqb, cond};
ghost use Rattle.lent.specs.Bytes.{byte_at, number_at, window, has_window, part_of};
ghost use Rattle.lent.specs.Scan.{alike};

pub fn byte_at(s: &[u8], at: usize) -> u8
    ensures { result ≡ byte_at s.now at }
{
    if at < s.len() {
        return s[at];
    }
    0
}

// The number of two bytes, the low one first.
pub fn join(low: u8, high: u8) -> u16
    ensures { result ≡ low + 256 * high }
{
    (low as u16) + 256 * (high as u16)
}

// As `usize::from`, with the bound in the contract, which sums of offsets need.
pub fn wide8(x: u8) -> usize
    ensures { (result ≡ x) × (result < 256) }
{
    x as usize
}

pub fn wide16(x: u16) -> usize
    ensures { (result ≡ x) × (result < 65536) }
{
    x as usize
}

// The number of two bytes that lie inside, as a table's do: no test a byte.
pub fn u16_in(s: &[u8], at: usize) -> u16
    requires { at + 2 ≤ length s.now }
    ensures { result ≡ number_at s.now at 2 }
{
    join(s[at], s[at + 1])
}

pub fn u16_at(s: &[u8], at: usize) -> u16
    requires { at < 17179869184 }
    ensures { result ≡ number_at s.now at 2 }
{
    if at + 1 < s.len() {
        return u16_in(s, at);
    }
    join(byte_at(s, at), byte_at(s, at + 1))
}

pub fn u32_at(s: &[u8], at: usize) -> usize
    requires { at < 8589934592 }
    ensures { (result ≡ number_at s.now at 4) × (result < 4294967296) }
{
    wide16(u16_at(s, at)) + 65536 * wide16(u16_at(s, at + 2))
}

pub fn has_window(s: &[u8], at: usize, n: usize) -> bool
    ensures { result ≡ has_window s.now at n }
{
    if s.len() < n {
        return false;
    }
    at <= s.len() - n
}

// The n bytes from `at` on, or none where they do not lie inside.
pub fn part(s: &[u8], at: usize, n: usize) -> &[u8]
    ensures { result.now ≡ part_of s.now at n }
{
    if has_window(s, at, n) {
        let end = at + n;
        return &s[at..end];
    }
    &s[0..0]
}

// The n bytes from `at` on, or as many of them as there are.
pub fn window(s: &[u8], at: usize, n: usize) -> &[u8]
    ensures { result.now ≡ window s.now at n }
{
    if has_window(s, at, n) {
        return part(s, at, n);
    }
    let end = s.len();
    if at < end {
        return &s[at..end];
    }
    &s[0..0]
}

// Are they the same bytes?
pub fn same(a: &[u8], b: &[u8]) -> bool
    ensures { result ≡ alike eqb a.now b.now }
{
    a == b
}

pub fn greater(a: usize, b: usize) -> usize
    ensures { result ≡ max a b }
{
    if a < b { b } else { a }
}

pub fn lesser(a: usize, b: usize) -> usize
    ensures { result ≡ min a b }
{
    if a < b { a } else { b }
}

// As `u8::from`, with the number as the definitions write it.
pub fn one(b: bool) -> u8
    ensures { result ≡ cond b 1 0 }
{
    if b { 1 } else { 0 }
}
