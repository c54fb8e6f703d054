// One line of a plan's text after the other.
ghost use Rattle.std.specs.Prelude.{◌≡◌, ◌<◌, IfOk, OnErr};

use crate::flaw::Flaw;
use limits::{MAX_BYTES, MAX_HEADER, MAX_STEPS};

// ---- words

// Word k as a number of two bytes, without leading zeros.
fn number(line: &[u8], k: usize) -> Result<usize, Flaw>
    ensures { IfOk result (λ n. n < 65536) }
{
    let text = caseline::word(line, k);
    if text.len() != 1 && text.starts_with(b"0") {
        return Err(Flaw::Number { field: k });
    }
    caseline::short(text).ok_or(Flaw::Number { field: k })
}

fn is_width(n: usize) -> bool {
    matches!(n, 1 | 2 | 4 | 8)
}

/// What the lines so far said.
#[derive(Clone, Copy, Default)]
pub struct Seen {
    // How many bytes the body has, and the record.
    body: usize,
    size: usize,
    // How many lines the text has, by its first.
    pub lines: usize,
    // Where the last step ends.
    end: usize,
}

impl Seen {
    // ---- the first two lines

    fn look_plan(&mut self, line: &[u8]) -> Result<(), Flaw>
        ensures { OnErr result (self.new ≡ self.old) }
    {
        if !matches!(caseline::word(line, 0), b"plan") {
            return Err(Flaw::PlanWord);
        }
        if caseline::words(line) != 9 {
            return Err(Flaw::Words);
        }
        if !matches!(caseline::word(line, 1), b"1") {
            return Err(Flaw::Edition);
        }
        number(line, 2)?;
        number(line, 3)?;
        let source_base = number(line, 4)?;
        let header = number(line, 5)?;
        let base = number(line, 6)?;
        let size = number(line, 7)?;
        let count = number(line, 8)?;
        if MAX_BYTES < source_base || MAX_BYTES < size || MAX_HEADER < header {
            return Err(Flaw::Head);
        }
        if size < header || size < base || MAX_STEPS < count {
            return Err(Flaw::Head);
        }
        *self = Seen {
            body: size - header,
            size,
            lines: 2 + count,
            end: header,
        };
        Ok(())
    }

    fn look_body(&self, line: &[u8]) -> Result<(), Flaw> {
        if !matches!(caseline::word(line, 0), b"body") {
            return Err(Flaw::BodyWord);
        }
        if caseline::words(line) != 2 {
            return Err(Flaw::Words);
        }
        let bytes = caseline::word(line, 1);
        if !caseline::is_hex(bytes) {
            return Err(Flaw::Hex);
        }
        if bytes.len() / 2 != self.body {
            return Err(Flaw::BodyLength);
        }
        Ok(())
    }

    // ---- the steps

    // A step of so many bytes of the source and of the target.
    fn look_places(&mut self, from: usize, to: usize, size: usize, wide: usize) -> Result<(), Flaw>
        requires from_fits { from < 65536 }
        requires to_fits { to < 65536 }
        requires size_fits { size < 65536 }
        requires wide_fits { wide < 65536 }
        ensures { OnErr result (self.new ≡ self.old) }
    {
        if MAX_BYTES < from + size {
            return Err(Flaw::SourceEnd);
        }
        if to < self.end {
            return Err(Flaw::Order);
        }
        if self.size < to + wide {
            return Err(Flaw::TargetEnd);
        }
        self.end = to + wide;
        Ok(())
    }

    fn look_copy(&mut self, line: &[u8]) -> Result<(), Flaw>
        ensures { OnErr result (self.new ≡ self.old) }
    {
        if caseline::words(line) != 4 {
            return Err(Flaw::Words);
        }
        let from = number(line, 1)?;
        let to = number(line, 2)?;
        let size = number(line, 3)?;
        if size == 0 {
            return Err(Flaw::Empty);
        }
        self.look_places(from, to, size, size)
    }

    fn look_int(&mut self, line: &[u8]) -> Result<(), Flaw>
        ensures { OnErr result (self.new ≡ self.old) }
    {
        if caseline::words(line) != 7 {
            return Err(Flaw::Words);
        }
        let from = number(line, 1)?;
        let to = number(line, 2)?;
        let size = number(line, 3)?;
        let wide = number(line, 4)?;
        if !matches!(caseline::word(line, 5), b"u" | b"s") {
            return Err(Flaw::Sign);
        }
        let marked = match caseline::word(line, 6) {
            b"0" => false,
            b"1" => true,
            _ => return Err(Flaw::Mark),
        };
        if !is_width(size) || !is_width(wide) || size == wide {
            return Err(Flaw::Widths);
        }
        if !marked && wide < size {
            return Err(Flaw::Narrows);
        }
        self.look_places(from, to, size, wide)
    }

    // The line of this number. One with a flaw counts as not seen.
    pub fn look(&mut self, line: &[u8], number: usize) -> Result<(), Flaw>
        ensures { OnErr result (self.new ≡ self.old) }
    {
        match number {
            1 => self.look_plan(line),
            2 => self.look_body(line),
            _ => match caseline::word(line, 0) {
                b"copy" => self.look_copy(line),
                b"int" => self.look_int(line),
                _ => Err(Flaw::StepWord),
            },
        }
    }
}
