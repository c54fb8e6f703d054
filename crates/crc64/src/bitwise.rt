// A bit at a time, as the rule is said: for a byte or two this is less work than to read a table.
ghost use Rattle.std.specs.Prelude.{◌≡◌, ℕ, ◌/◌, ◌%◌, List, [], ◌∷◌};
ghost use Rattle.crc64.specs.Sum.{shift, byte_step, u16_step, bytes_step};
ghost use Rattle.crc64.specs.Summands.{one_byte, low-high};

use crate::Crc64;

// The bit shifted out makes a mask of all ones or of none.
pub fn shift_one(fp: u64) -> u64
    ensures { result ≡ shift fp }
{
    let mask = std::num::wrapping_sub_u64(0, fp & 1);
    (fp >> 1) ^ (mask & Crc64::EMPTY)
}

// A number that a sum takes in.
pub trait Summand {
    // What becomes of a sum.
    ghost step_of: { ℕ → Self → ℕ };

    // Its bytes, the low one first.
    ghost bytes: { Self → List ℕ };

    fn step(self, fp: u64) -> u64
        ensures { result ≡ step_of fp self };

    // It goes in as its bytes do, one after the other.
    ghost is_run: { (fp : ℕ) (v : Self) → step_of fp v ≡ bytes_step fp (bytes v) };
}

impl Summand for u8 {
    ghost step_of = { byte_step };

    ghost bytes = { λ b. b ∷ [] };

    ghost is_run = { one_byte };

    fn step(self, start: u64) -> u64 {
        let mut fp = start ^ (self as u64);
        for _turn in 0..8u8 {
            fp = shift_one(fp);
        }
        fp
    }
}

impl Summand for u16 {
    ghost step_of = { u16_step };

    ghost bytes = { λ v. v % 256 ∷ v / 256 ∷ [] };

    ghost is_run = { low-high };

    fn step(self, fp: u64) -> u64 {
        let low = ((self & 0xFF) as u8).step(fp);
        ((self >> 8) as u8).step(low)
    }
}
