// The interpreter and the dispatch. The target's bytes stand in the line, and as they are then in the answer.
use crate::answer::{Answer, Value};
use crate::given;
use crate::given::Line;
use crate::plans::Plans;
use crate::words::TARGET_SIZE;
use tuppenceowl::upgrading;

pub type Target = [u8; TARGET_SIZE];

// The first bytes of the target, as word k gives them.
fn set<'a>(target: &'a mut Target, line: Line, k: usize) -> &'a mut [u8] {
    let given = line.bytes(k);
    let n = given.len().min(TARGET_SIZE);
    target[..n].copy_from_slice(&given[..n]);
    &mut target[..n]
}

pub fn apply(line: Line, plans: &Plans, target: &mut Target) -> Answer {
    let slot = lent::part(plans, line.number(1), line.number(2));
    let target = set(target, line, 5);
    let upgraded = upgrading::apply(slot, line.bytes(3), line.number(4), target)?;
    Ok(Value::Pair(upgraded.rtype as usize, upgraded.size))
}

pub fn upgrade(line: Line, plans: &Plans, target: &mut Target) -> Answer {
    let slots = lent::part(plans, 0, line.number(1));
    let mut room = [0; given::MOST_IDS];
    let ids = given::ids(line.bytes(2), &mut room);
    let target = set(target, line, 8);
    let upgraded = upgrading::upgrade(
        slots,
        ids,
        line.short(3),
        line.number(4),
        line.number(5),
        line.bytes(6),
        line.number(7),
        target,
    )?;
    Ok(Value::Pair(upgraded.rtype as usize, upgraded.size))
}
