// The words that ask for sums and hashes.
use crate::answer::{Answer, Value};
use crate::given::Line;
use crate::layouts::Last;
use tuppenceowl::hashing;

pub fn sum(line: Line) -> Answer {
    Ok(Value::Sum(hashing::sum(line.bytes(1))))
}

// That of a part of the slots.
pub fn slots(line: Line, plans: &[u8]) -> Answer {
    let part = lent::part(plans, line.number(1), line.number(2));
    Ok(Value::Sum(hashing::sum(part)))
}

pub fn hash(line: Line, last: &Last) -> Answer {
    let walked = hashing::layout_hash(last.catalogue(), last.layout(), line.number(1))?;
    Ok(Value::Sum(walked.fp))
}

// With the visits, where the line gives a budget of them.
pub fn visits(line: Line, last: &Last) -> Answer {
    let cat = last.catalogue();
    let budget = line.number(2);
    let walked = hashing::layout_hash_within(cat, last.layout(), line.number(1), budget)?;
    Ok(Value::Counted(walked.fp, walked.visits))
}

pub fn boot(line: Line, last: &Last) -> Answer {
    let is_same = hashing::boot_check(last.catalogue(), last.layout(), line.number(1))?;
    Ok(if is_same {
        Value::Same
    } else {
        Value::Different
    })
}
