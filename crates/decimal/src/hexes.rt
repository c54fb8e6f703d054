// Bytes as hex, both ways, and a text compared with the hex of bytes.
ghost use Rattle.std.specs.Prelude.{◌≡◌, ◌+◌, ◌*◌, ◌<◌, ◌≤◌, length, eqb};
ghost use Rattle.std.proofs.lemmas.List.Edits.{sets};
ghost use Rattle.lent.specs.Bytes.{window};
ghost use Rattle.lent.specs.Scan.{alike};
ghost use Rattle.decimal.specs.Put.{Put};
ghost use Rattle.decimal.specs.Hex.{glyph, nibble, hex, unhex};

fn glyph(d: u8) -> u8
    requires { d < 16 }
    ensures { result ≡ glyph d }
{
    if d < 10 { b'0' + d } else { b'a' - 10 + d }
}

fn nibble(c: u8) -> u8
    ensures { (result ≡ nibble c) × (result < 16) }
{
    (c % 16 + 9 * (c / 64)) % 16
}

// The hex of n bytes of s from `from` on.
pub fn put_hex(s: &[u8], from: usize, n: usize, out: &mut [u8], at: usize) -> usize
    requires { (from + n ≤ length s.now) × (at + 2 * n ≤ length out.old) }
    ensures { Put out.old at (hex (window s.now from n)) out.new result }
{
    for (i, b) in s[from..from + n].iter().enumerate() {
        let to = at + 2 * i;
        out[to] = glyph(*b / 16);
        out[to + 1] = glyph(*b % 16);
    }
    at + 2 * n
}

// Does the hex of n bytes of s from `from` on stand in the text from `at` on?
pub fn same_hex(s: &[u8], from: usize, n: usize, text: &[u8], at: usize) -> bool
    requires { (from + n ≤ length s.now) × (at + 2 * n ≤ length text.now) }
    ensures { result ≡ alike eqb (hex (window s.now from n)) (window text.now at (2 * n)) }
{
    for (i, b) in s[from..from + n].iter().enumerate() {
        let there = at + 2 * i;
        if !((glyph(*b / 16) == text[there]) & (glyph(*b % 16) == text[there + 1])) {
            return false;
        }
    }
    true
}

// The n bytes that the text gives, stored from `to` on.
pub fn take_hex(text: &[u8], n: usize, out: &mut [u8], to: usize)
    requires { (n ≤ 65536) × (to + n ≤ length out.old) }
    ensures { out.new ≡ sets out.old to (unhex n text.now) }
{
    for i in 0..n {
        let high = nibble(lent::byte_at(text, 2 * i));
        let low = nibble(lent::byte_at(text, 2 * i + 1));
        out[to + i] = 16 * high + low;
    }
}
