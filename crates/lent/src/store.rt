// Stores of bytes: a run copied from one place to another, and the bytes of a number.
ghost use Rattle.std.specs.Prelude.{◌≡◌, ◌+◌, ◌/◌, ◌%◌, ◌≤◌, length, replicate};
ghost use Rattle.std.proofs.lemmas.List.Edits.{sets};
ghost use Rattle.lent.specs.Bytes.{bytes_of, window};

use crate::words;

// The bytes of a number one by one, as the definitions take it apart; `to_le_bytes` gives both where one is asked for.
pub fn low(x: u16) -> u8
    ensures { result ≡ x % 256 }
{
    (x % 256) as u8
}

pub fn high(x: u16) -> u8
    ensures { result ≡ x / 256 % 256 }
{
    (x / 256) as u8
}

// Fewer than eight bytes, one by one.
fn few(s: &[u8], from: usize, d: &mut [u8], to: usize, n: usize)
    requires { (from + n ≤ length s.now) × (to + n ≤ length d.old) }
    ensures { d.new ≡ sets d.old to (window s.now from n) }
{
    for i in 0..n {
        d[to + i] = s[from + i];
    }
}

// Eight bytes at once.
fn word(s: &[u8], from: usize, d: &mut [u8], to: usize)
    requires { (from + 8 ≤ length s.now) × (to + 8 ≤ length d.old) }
    ensures { d.new ≡ sets d.old to (window s.now from 8) }
{
    let v = words::eight_in(s, from);
    words::store_eight(d, to, v as u64);
}

// n bytes of s from `from` on, stored from `to` on: the first word, those between, the last, which may lie over the one before. So no bytes are
// left for a loop of their own, and up to 16 take none.
pub fn copy(s: &[u8], from: usize, d: &mut [u8], to: usize, n: usize)
    requires { (from + n ≤ length s.now) × (to + n ≤ length d.old) }
    ensures { d.new ≡ sets d.old to (window s.now from n) }
{
    if n < 8 {
        few(s, from, d, to, n);
        return;
    }
    let last = n - 8;
    word(s, from, d, to);
    for k in 1..(last + 7) / 8 {
        let i = 8 * k;
        word(s, from + i, d, to + i);
    }
    word(s, from + last, d, to + last);
}

// n zeros from `at` on.
pub fn zeros(d: &mut [u8], at: usize, n: usize)
    requires { at + n ≤ length d.old }
    ensures { d.new ≡ sets d.old at (replicate n 0) }
{
    d[at..at + n].fill(0);
}

// The two bytes of a number, the low one first.
pub fn number16(d: &mut [u8], at: usize, x: u16)
    requires { at + 2 ≤ length d.old }
    ensures { d.new ≡ sets d.old at (bytes_of 2 x) }
{
    d[at] = low(x);
    d[at + 1] = high(x);
}
