// The words that ask for verdicts, fields and selection. The other layout stands in the line.
use crate::answer::{Answer, Unanswered, Value};
use crate::given::Line;
use crate::layouts::Last;
use compare::answer::Verdict;
use tuppenceowl::{comparing, planning};

impl From<Verdict> for Value {
    fn from(verdict: Verdict) -> Self {
        match verdict {
            Verdict::Compiled => Value::Compiled,
            Verdict::Dynamic => Value::Dynamic,
        }
    }
}

pub fn verdict(line: Line, last: &Last) -> Answer {
    let cat = last.catalogue();
    let verdict = comparing::verdict(cat, last.layout(), line.number(1), line.bytes(2))?;
    Ok(Value::from(verdict))
}

pub fn verdict_of(line: Line, last: &Last) -> Answer {
    let cat = last.catalogue();
    let verdict = comparing::verdict_of(cat, last.layout(), line.short(1), line.bytes(2))?;
    Ok(Value::from(verdict))
}

pub fn by_id(line: Line, last: &Last) -> Answer {
    let cat = last.catalogue();
    let found = comparing::field_by_id(cat, last.layout(), line.short(1), line.short(2))?;
    Ok(Value::Field(found.ok_or(Unanswered::Nothing)?))
}

pub fn by_name(line: Line, last: &Last) -> Answer {
    let cat = last.catalogue();
    let found = comparing::field_by_name(cat, last.layout(), line.short(1), line.bytes(2))?;
    Ok(Value::Field(found.ok_or(Unanswered::Nothing)?))
}

pub fn select(line: Line, last: &Last) -> Answer {
    let selected = planning::select(
        last.catalogue(),
        last.layout(),
        line.number(1),
        line.bytes(3),
        line.schema(2),
    )?;
    Ok(selected.map_or(Value::Unplanned, Value::Size))
}
