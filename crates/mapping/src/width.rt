// A number of 1, 2, 4 or 8 bytes, read and stored.
ghost use Rattle.std.specs.Prelude.{◌≡◌, ◌+◌, ◌<◌, ◌≤◌, true, length};
ghost use Rattle.std.proofs.lemmas.List.Edits.{sets};
ghost use Rattle.lent.specs.Bytes.{number_at, bytes_of};
ghost use Rattle.catalogue.specs.Catalogue.{is_width};
ghost use Rattle.mapping.specs.Mapping.{span};

use lent::words;

// The number that n bytes hold.
#[tactic(auto, unfolding(crate::specs::Mapping::span, crate::specs::Mapping::half))]
pub fn number_in(s: &[u8], at: usize, n: usize) -> u64
    requires { (is_width n ≡ true) × (at + n ≤ length s.now) }
    ensures { (result ≡ number_at s.now at n) × (result < span n) }
{
    match n {
        1 => lent::wide8(s[at]) as u64,
        2 => words::two_in(s, at) as u64,
        4 => words::four_in(s, at) as u64,
        _ => words::eight_in(s, at) as u64,
    }
}

// The n low bytes of a number, stored from `at` on.
pub fn store_number(d: &mut [u8], at: usize, n: usize, v: u64)
    requires { (is_width n ≡ true) × (at + n ≤ length d.old) }
    ensures { d.new ≡ sets d.old at (bytes_of n v) }
{
    match n {
        1 => d[at] = (v % 256) as u8,
        2 => words::store_two(d, at, v),
        4 => words::store_four(d, at, v),
        _ => words::store_eight(d, at, v),
    }
}
