// Numbers of two, four and eight bytes that lie inside, read and stored in straight lines: one load and one store each.
// Each is two of the one before it: a const parameter for the width would call itself at half of it, which no const argument may be.
ghost use Rattle.std.specs.Prelude.{◌≡◌, ◌+◌, ◌<◌, ◌≤◌, length};
ghost use Rattle.std.proofs.lemmas.List.Edits.{sets};
ghost use Rattle.lent.specs.Bytes.{number_at, bytes_of};

pub fn two_in(s: &[u8], at: usize) -> usize
    requires { at + 2 ≤ length s.now }
    ensures { (result ≡ number_at s.now at 2) × (result < 65536) }
{
    crate::wide16(crate::u16_in(s, at))
}

pub fn four_in(s: &[u8], at: usize) -> usize
    requires { at + 4 ≤ length s.now }
    ensures { (result ≡ number_at s.now at 4) × (result < 4294967296) }
{
    two_in(s, at) + 65536 * two_in(s, at + 2)
}

pub fn eight_in(s: &[u8], at: usize) -> usize
    requires { at + 8 ≤ length s.now }
    ensures { (result ≡ number_at s.now at 8) × (result < 18446744073709551616) }
{
    four_in(s, at) + 4294967296 * four_in(s, at + 4)
}

pub fn store_two(d: &mut [u8], at: usize, v: u64)
    requires { at + 2 ≤ length d.old }
    ensures { d.new ≡ sets d.old at (bytes_of 2 v) }
{
    d[at] = (v % 256) as u8;
    d[at + 1] = (v / 256 % 256) as u8;
}

pub fn store_four(d: &mut [u8], at: usize, v: u64)
    requires { at + 4 ≤ length d.old }
    ensures { d.new ≡ sets d.old at (bytes_of 4 v) }
{
    store_two(d, at, v);
    store_two(d, at + 2, v / 65536);
}

pub fn store_eight(d: &mut [u8], at: usize, v: u64)
    requires { at + 8 ≤ length d.old }
    ensures { d.new ≡ sets d.old at (bytes_of 8 v) }
{
    store_four(d, at, v);
    store_four(d, at + 4, v / 4294967296);
}
