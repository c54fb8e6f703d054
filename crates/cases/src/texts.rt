// The words that write a plan as text and read a text. What is left in the lent bytes is told by its length and its sum.
use crate::answer::{Answer, Unanswered, Value};
use crate::given;
use crate::given::Line;
use crate::words::{HEX_SIZE, ROOM_SIZE};
use tuppenceowl::{hashing, texting};

// What stands in lent bytes before a call.
const FOUND: u8 = 170;

// A slot: zeros, with what is given for its head and steps, and for its body.
fn fill(line: Line, plan: &mut [u8]) -> Option<()> {
    given::store(line.bytes(3), plan, 0)?;
    given::store(line.bytes(4), plan, slot::BODY_FROM)
}

fn written(plan: &[u8], text: &mut [u8]) -> Answer {
    let length = texting::write_plan(plan, text)?;
    Ok(Value::Counted(hashing::sum(text), length))
}

fn read(text: &[u8], plan: &mut [u8]) -> Answer {
    texting::read_plan(text, plan)?;
    Ok(Value::Counted(hashing::sum(plan), slot::SIZE))
}

pub fn write_plan(line: Line) -> Answer {
    let mut plan = [0; HEX_SIZE];
    fill(line, &mut plan).ok_or(Unanswered::Malformed)?;
    let mut text = [FOUND; ROOM_SIZE];
    let room = line.number(1).min(ROOM_SIZE);
    written(lent::part(&plan, 0, line.number(2)), &mut text[..room])
}

pub fn read_plan(line: Line) -> Answer {
    let mut plan = [FOUND; ROOM_SIZE];
    let room = line.number(1).min(ROOM_SIZE);
    read(line.bytes(2), &mut plan[..room])
}
