// Bytes as they are printed, and text that is put into lent bytes.
ghost use Rattle.std.specs.Prelude.{◌<◌};

use std::{fmt, str};

// Bytes whose digits are written at once.
const PIECE: usize = 64;

// Of a number below sixteen.
fn digit(n: u8) -> u8
    requires { n < 16 }
{
    if n < 10 { b'0' + n } else { b'a' - 10 + n }
}

// Bytes, two digits each.
#[derive(Clone, Copy)]
pub struct Hex<'a>(pub &'a [u8]);

impl fmt::Display for Hex<'_> {
    fn fmt<W: fmt::Write>(&self, f: &mut fmt::Formatter<W>) -> fmt::Result {
        let mut digits = [0; 2 * PIECE];
        for bytes in self.0.chunks(PIECE) {
            put_digits(bytes, &mut digits);
            let n = 2 * bytes.len().min(PIECE);
            match str::from_utf8(&digits[..n]) {
                Ok(text) => f.write_str(text)?,
                Err(_) => return Err(fmt::Error),
            }
        }
        Ok(())
    }
}

// The digits of as many bytes as there is room for, from the start.
fn put_digits(bytes: &[u8], digits: &mut [u8]) {
    for (pair, byte) in digits.chunks_exact_mut(2).zip(bytes) {
        pair[0] = digit(byte / 16);
        pair[1] = digit(byte % 16);
    }
}

// Puts text into lent bytes from `at` on, and tells where it ends. What does not fit is left out.
pub fn text(out: &mut [u8], at: usize, t: &[u8]) -> usize {
    if out.len() <= at {
        return at;
    }
    let n = t.len().min(out.len() - at);
    out[at..at + n].copy_from_slice(&t[..n]);
    at + n
}
