// Why a text is no plan: the first line that differs from a plan's form, or breaks a rule (docs/FORMATS.md). That it is none was the library's
// answer; this looks for a line to show.
#![tactic(auto)]

pub mod flaw;
pub mod lines;

use flaw::Flaw;
use lines::Seen;
use std::io;

const NEWLINE: u8 = b'\n';

// The first flaw, and the number of its line.
fn look(text: &[u8]) -> Result<(), (usize, Flaw)> {
    let mut seen = Seen::default();
    let mut number: usize = 0;
    for line in text.split_inclusive(|b| *b == NEWLINE) {
        number = number.saturating_add(1);
        let content = line.strip_suffix(b"\n").unwrap_or(line);
        seen.look(content, number).map_err(|flaw| (number, flaw))?;
    }
    if number < 2 {
        Err((number + 1, Flaw::Missing))
    } else if number != seen.lines {
        Err((number, Flaw::StepCount))
    } else if !text.ends_with(b"\n") {
        Err((number, Flaw::NoNewline))
    } else {
        Ok(())
    }
}

// Says so behind the file's name.
pub fn say(stream: &impl Print, text: &[u8]) -> io::Result<()> {
    match look(text) {
        Err((line, flaw)) => println!(stream; ":{line}: {flaw}"),
        Ok(()) => println!(stream; ": no plan (r16)"),
    }
}
