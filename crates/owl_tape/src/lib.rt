// A tape: records in hex, one a line of standard input, upgraded by the plan of a file. Each record has one line of the output.
#![tactic(auto)]

use arrayvec::ArrayString;
use caseline::input;
use caseline::put::Hex;
use dispatch::Upgraded;
use owl_say::{files, refusals};
use plan_read::reader;
use std::fmt::Write;
use std::io;
use std::rt::Env;

pub type Slot = [u8; slot::SIZE];

// Places of the slot (docs/FORMATS.md): the source's rtype, the target's header.
const RTYPE_AT: usize = 0;

const HEADER_AT: usize = 6;

// The longest line of the output, with its end.
const LONGEST: usize = 2 * limits::MAX_BYTES + 2;

// ---- the plan

// The slot of the plan whose text the file that argument k names has; if it is no plan's, it is said why.
pub fn read(rt: &impl Env, stream: &impl Print, text: &[u8], k: usize) -> io::Result<Option<Slot>> {
    let mut slot = [0; slot::SIZE];
    match reader::read_plan(text, &mut slot) {
        Ok(()) => Ok(Some(slot)),
        Err(_) => {
            files::say_arg(rt, stream, k)?;
            owl_check::say(stream, text)?;
            Ok(None)
        }
    }
}

// ---- the records

/// What is made of a record: the plan in the slot upgrades it, as one of the plan's rtype with so long a header, and its line goes to `stdout`.
#[derive(Clone, Copy)]
pub struct Tape<'a, P> {
    pub stdout: &'a P,
    pub slot: &'a Slot,
    pub source_header: usize,
}

impl<P: Print> Tape<'_, P> {
    // 'b' and the body, in one write.
    fn say_body(&self, body: &[u8]) -> io::Result<()> {
        let mut line: ArrayString<LONGEST> = ArrayString::new();
        writeln!(line, "b{}", Hex(body))?;
        self.stdout.write_all(line.as_str().as_bytes())
    }

    // 'b' and the body of what is made, or the refusal.
    pub fn upgrade(&self, record: &[u8]) -> io::Result<()> {
        let mut target = [0; limits::MAX_BYTES];
        let slot = self.slot;
        let header = usize::from(lent::u16_at(slot, HEADER_AT));
        let answer = dispatch::upgrade(
            slot,
            &[],
            lent::u16_at(slot, RTYPE_AT),
            self.source_header,
            header,
            record,
            record.len(),
            &mut target,
        );
        match answer {
            Ok(Upgraded { size, .. }) => match target.get(header..size) {
                Some(body) => self.say_body(body),
                None => Ok(()),
            },
            Err(r) => refusals::refused(self.stdout, r),
        }
    }

    fn say_fault(&self, number: usize) -> io::Result<()> {
        println!(self.stdout;
            "? line {number}: not a record; expected its bytes in hex, two of 0-9 a-f each, and nothing else"
        )
    }

    // Apart from `on_line`, so that a line without a record needn't clear the room for one.
    #[inline(never)]
    fn on_word(&self, word: &[u8], number: usize) -> io::Result<()> {
        let mut bytes = [0; input::ROOM_SIZE / 2];
        match caseline::hex(word, &mut bytes) {
            Some(n) => self.upgrade(&bytes[..n]),
            None => self.say_fault(number),
        }
    }

    // An empty line or a comment is passed over.
    pub fn on_line(&self, line: &[u8], number: usize) -> io::Result<()> {
        let content = blanks::content(line);
        match blanks::words(content) {
            0 => Ok(()),
            1 => self.on_word(blanks::word(content, 0), number),
            _ => self.say_fault(number),
        }
    }
}

// Each line of standard input, by its number.
pub fn run(rt: &(impl Input + Print), slot: &Slot, source_header: usize) -> io::Result<()> {
    let tape = Tape {
        stdout: rt,
        slot,
        source_header,
    };
    let mut number: usize = 0;
    input::each_line(&mut rt.reader(), |line| {
        number = number.saturating_add(1);
        tape.on_line(line, number)
    })
}
