// The strip: a letter for each byte of the target record, 64 in a row.
use std::{fmt, io};

// Letters in a row, and how many stand together.
const ROW: usize = 64;

const GROUP: usize = 8;

/// Bytes of a record, from `from` up to `to`.
#[derive(Clone, Copy, Debug, PartialEq, Eq)]
pub struct Run {
    pub from: usize,
    pub to: usize,
}

impl fmt::Display for Run {
    fn fmt<W: fmt::Write>(&self, f: &mut fmt::Formatter<W>) -> fmt::Result {
        let Run { from, to } = *self;
        write!(f, "{from:>5}..{to:<5}")
    }
}

/// The letters, one a byte.
#[derive(Clone, Copy)]
pub struct Cells(pub [u8; limits::MAX_BYTES]);

impl Cells {
    // The first byte has a letter of its own.
    pub fn fill(&mut self, run: Run, first: u8, rest: u8) {
        let mut letter = first;
        for cell in self.0.iter_mut().take(run.to).skip(run.from) {
            *cell = letter;
            letter = rest;
        }
    }

    // The first `size` letters. Where a row begins, its place goes before; each group stands behind a blank.
    pub fn say(&self, stdout: &impl Print, size: usize) -> io::Result<()> {
        let end = size.min(limits::MAX_BYTES);
        for (row, letters) in self.0[..end].chunks(ROW).enumerate() {
            print!(stdout; "\n{:>5}", ROW * row)?;
            for group in letters.chunks(GROUP) {
                stdout.write_all(b" ")?;
                stdout.write_all(group)?;
            }
        }
        Ok(())
    }
}
