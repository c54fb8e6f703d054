// The planner, whose plan goes into the slots, and bytes that are put there.
use crate::answer::{Answer, Unanswered, Value};
use crate::given;
use crate::given::Line;
use crate::layouts::Last;
use caseline::put::Hex;
use std::fmt;
use tuppenceowl::{hashing, planning};

// Room for four plans.
pub const PLANS_SIZE: usize = 24640;

pub type Plans = [u8; PLANS_SIZE];

pub fn put(line: Line, plans: &mut Plans) -> Answer {
    given::store(line.bytes(2), plans, line.number(1)).ok_or(Unanswered::Malformed)?;
    Ok(Value::Fine)
}

pub fn plan(line: Line, last: &Last, plans: &mut Plans) -> Answer {
    let at = line.number(6);
    let room = line.number(7);
    if room > PLANS_SIZE || at > PLANS_SIZE - room {
        return Err(Unanswered::Malformed);
    }
    planning::plan(
        last.catalogue(),
        last.layout(),
        line.number(1),
        line.bytes(8),
        line.number(2),
        line.number(3),
        line.bytes(4),
        line.bytes(5),
        &mut plans[at..at + room],
    )?;
    Ok(Value::Fine)
}

// A plan in its slot.
#[derive(Clone, Copy)]
pub struct Slot<'a>(pub &'a [u8]);

// The numbers and the steps, the body, and the sum of all bytes that were lent.
impl fmt::Display for Slot<'_> {
    fn fmt<W: fmt::Write>(&self, f: &mut fmt::Formatter<W>) -> fmt::Result {
        let steps = lent::u16_at(self.0, 12) as usize;
        let header = lent::u16_at(self.0, 6) as usize;
        let size = lent::u16_at(self.0, 10) as usize;
        let front = Hex(lent::part(self.0, 0, 16 + 16 * steps));
        let body = Hex(lent::part(self.0, slot::BODY_FROM, size.saturating_sub(header)));
        let sum = hashing::sum(self.0);
        write!(f, "{front} {body} {sum:016x}")
    }
}
