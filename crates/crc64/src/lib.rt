// Crc64 of dbn's hash.rs: CRC-64-AVRO, the sum behind a layout's hash.
#![tactic(auto)]

// Bytes and digits have a table and a walk each: they differ in their entries and in how they are read, not in a type or a size.
pub mod bitwise;
pub mod bytewise;
pub mod digitwise;

ghost use Rattle.std.specs.Prelude.{◌≡◌};
ghost use Rattle.crc64.specs.Sum.{empty, bytes_step};
ghost use Rattle.crc64.specs.Avro.{fingerprint};

use bitwise::Summand;

// A running sum.
#[derive(Clone, Copy, Debug, PartialEq, Eq)]
pub struct Crc64 {
    pub fp: u64,
}

impl Crc64 {
    pub const EMPTY: u64 = 0xC15D_213A_A4D7_A795;

    pub fn new() -> Self
        ensures { result.fp ≡ empty }
    {
        Self { fp: Self::EMPTY }
    }

    pub fn with<N: Summand>(self, number: N) -> Self
        ensures { result.fp ≡ N.step_of self.fp number }
    {
        Self {
            fp: number.step(self.fp),
        }
    }

    pub fn with_bytes(self, b: &[u8]) -> Self
        ensures { result.fp ≡ bytes_step self.fp b.now }
    {
        Self {
            fp: bytewise::step_bytes(self.fp, b),
        }
    }

    pub fn finish(self) -> u64
        ensures { result ≡ self.fp }
    {
        self.fp
    }
}

// The sum of some bytes alone, which is the fingerprint that Avro gives them.
pub fn sum(bytes: &[u8]) -> u64
    ensures { result ≡ fingerprint bytes.now }
{
    Crc64::new().with_bytes(bytes).finish()
}

// The same on a sum that is lent, which is changed in place.
pub fn hash<N: Summand>(crc: &mut Crc64, number: N)
    ensures { crc.new.fp ≡ N.step_of crc.old.fp number }
{
    *crc = crc.with(number);
}
