// Faults of a text of layouts: what was wrong, where, and what was expected.
use crate::layouts::fault::Flaw;
use owl_say::console::Console;
use std::io;
use std::rt::Env;

// Most bytes of a word that a message shows.
const QUOTED: usize = 40;

// The file and the line.
pub fn place<R: Env, E: Print>(console: &Console<'_, R, E>, line: usize) -> io::Result<()> {
    console.complain_arg(2)?;
    print!(console.stderr; ":{line}: ")
}

fn quote(stderr: &impl Print, word: &[u8]) -> io::Result<()> {
    if word.is_empty() {
        return print!(stderr; "at the end: ");
    }
    print!(stderr; "'")?;
    match word.get(..QUOTED) {
        Some(shown) if QUOTED < word.len() => {
            stderr.write_all(shown)?;
            print!(stderr; "..': ")
        }
        _ => {
            stderr.write_all(word)?;
            print!(stderr; "': ")
        }
    }
}

pub fn say<R: Env, E: Print>(console: &Console<'_, R, E>, flaw: &Flaw<'_>) -> io::Result<()> {
    place(console, flaw.line.number)?;
    quote(console.stderr, flaw.line.word(flaw.word))?;
    println!(console.stderr; "{}", flaw.fault)
}
