// Refusals, by number and in words.
use limits::refusal::Refusal;
use std::{fmt, io};

/// A refusal as it is said: its number, then its words.
#[derive(Clone, Copy)]
pub struct Numbered(pub Refusal);

impl fmt::Display for Numbered {
    fn fmt<W: fmt::Write>(&self, f: &mut fmt::Formatter<W>) -> fmt::Result {
        let refusal = self.0;
        let number = u8::from(refusal);
        write!(f, "r{number} {refusal}")
    }
}

pub fn refused(stream: &impl Print, refusal: Refusal) -> io::Result<()> {
    println!(stream; "{}", Numbered(refusal))
}
