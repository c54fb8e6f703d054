// The commands that take a plan's text.
use crate::HEADER;
use owl_say::console::Console;
use owl_say::files;
use owl_tape::Slot;
use std::io;
use std::rt::{Env, Files};

// The plan that the file holds; if it holds none, it was said why, of a text that is no plan to `stream`.
fn load<R: Env + Files, E: Print>(
    console: &Console<'_, R, E>,
    stream: &impl Print,
    most: usize,
) -> io::Result<Option<Slot>> {
    let mut room = [0; files::ROOM];
    match console.load_second(most, &mut room)? {
        Some(text) => owl_tape::read(console.rt, stream, text, 2),
        None => Ok(None),
    }
}

// ---- the commands

pub fn check<R: Env + Files + Print, E: Print>(console: &Console<'_, R, E>) -> io::Result<()> {
    // Here that the text is no plan is the result.
    match load(console, console.rt, 3)? {
        Some(slot) => owl_map::summary(console.rt, &slot),
        None => Ok(()),
    }
}

pub fn map<R: Env + Files + Print, E: Print>(console: &Console<'_, R, E>) -> io::Result<()> {
    match load(console, console.stderr, 3)? {
        Some(slot) => owl_map::draw(console.rt, &slot),
        None => Ok(()),
    }
}

// The length of the source's header, if the word for it is a number.
fn header(rt: &impl Env) -> Option<usize> {
    if !files::has_arg(rt, 3) {
        return Some(HEADER);
    }
    let word = files::arg(rt, 3).ok()?;
    caseline::short(word.as_slice())
}

pub fn upgrade<R: Env + Files + Input + Print, E: Print>(
    console: &Console<'_, R, E>,
) -> io::Result<()> {
    let Some(header) = header(console.rt) else {
        print!(console.stderr; "owl: '")?;
        console.complain_arg(3)?;
        return println!(console.stderr; "': expected the length of the source's header, a number");
    };
    match load(console, console.stderr, 4)? {
        Some(slot) => owl_tape::run(console.rt, &slot, header),
        None => Ok(()),
    }
}
