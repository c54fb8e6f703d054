// Reads cases from standard input, one a line, and writes the answer to each as a line to standard output.
#![tactic(auto)]

mod answer;
mod asks;
mod cursor;
mod given;
mod hashes;
mod kept;
mod layouts;
mod plans;
mod texts;
mod upgrades;
mod verdicts;
mod words;

use asks::{Out, Said};
use caseline::input;
use cursor::Built;
use given::Line;
use kept::Kept;
use layouts::Last;
use std::io;
use words::Word;

// Writes the answer to a line, and keeps what the line asks to keep.
fn answered(
    rt: &impl Print,
    text: &[u8],
    kept: &mut Kept,
    room: &mut [u8],
    out: &mut Out,
) -> io::Result<()> {
    // An empty line and a title are written as they are.
    if text.first().is_none_or(|b| *b == b'#') {
        rt.write_all(text)?;
        return rt.write_all(b"\n");
    }
    let line = Line { text, decoded: &[] };
    match Word::of(line, room) {
        None => println!(rt; "?"),
        Some(word) => {
            let line = Line {
                text,
                decoded: room,
            };
            let answer = asks::asked(word, line, kept);
            let said = Said {
                word,
                line,
                kept,
                answer,
            };
            asks::say(rt, said, out)
        }
    }
}

fn main(rt: HostRuntime) -> io::Result<()> {
    let mut kept = Kept {
        last: Last::new(),
        built: Built::new(),
        plans: [0; plans::PLANS_SIZE],
        target: [0; words::TARGET_SIZE],
    };
    let mut room = [0; given::DECODED_SIZE];
    let mut out = Out::new();
    input::each_line(&mut rt.reader(), |text| {
        answered(&rt, text, &mut kept, &mut room, &mut out)
    })
}
