// An answer, and how it is printed.
use cursor_rules::FieldCursor;
use field::FieldDef;
use limits::refusal::{Failure, Refusal};
use std::fmt;

#[derive(Clone, Copy)]
pub enum Value {
    Fine,
    Same,
    Different,
    Compiled,
    Dynamic,
    Unplanned,
    Size(usize),
    Pair(usize, usize),
    Sum(u64),
    // A sum and how many visits or bytes.
    Counted(u64, usize),
    Field(FieldDef),
    State(FieldCursor),
}

// Why there is no value.
#[derive(Clone, Copy)]
pub enum Unanswered {
    Malformed,
    Nothing,
    Refused(Refusal),
}

pub type Answer = Result<Value, Unanswered>;

impl From<Refusal> for Unanswered {
    fn from(refusal: Refusal) -> Self {
        Unanswered::Refused(refusal)
    }
}

impl From<Failure> for Unanswered {
    fn from(failure: Failure) -> Self {
        match failure {
            Failure::NoRecord => Unanswered::Nothing,
            Failure::Refused(refusal) => Unanswered::Refused(refusal),
        }
    }
}

impl fmt::Display for Unanswered {
    fn fmt<W: fmt::Write>(&self, f: &mut fmt::Formatter<W>) -> fmt::Result {
        match self {
            Unanswered::Malformed => f.write_str("?"),
            Unanswered::Nothing => f.write_str("none"),
            Unanswered::Refused(refusal) => write!(f, "r{}", u8::from(*refusal)),
        }
    }
}

// The numbers of a field, in the order of its bytes.
fn write_field<W: fmt::Write>(f: &mut fmt::Formatter<W>, def: FieldDef) -> fmt::Result {
    let FieldDef {
        field_id,
        offset,
        size,
        type_id,
        flags,
        def_index,
        scale,
        reserved,
    } = def;
    write!(
        f,
        "{field_id} {offset} {size} {type_id} {flags} {def_index} {scale} {reserved}"
    )
}

// How many fields there are, the cursor, and the base, once it is noted.
fn write_state<W: fmt::Write>(f: &mut fmt::Formatter<W>, state: FieldCursor) -> fmt::Result {
    write!(f, "{} {} ", state.count, state.cursor)?;
    if state.based {
        write!(f, "{}", state.base)
    } else {
        f.write_str("-")
    }
}

impl fmt::Display for Value {
    fn fmt<W: fmt::Write>(&self, f: &mut fmt::Formatter<W>) -> fmt::Result {
        match self {
            Value::Fine => f.write_str("ok"),
            Value::Same => f.write_str("same"),
            Value::Different => f.write_str("different"),
            Value::Compiled => f.write_str("compiled"),
            Value::Dynamic => f.write_str("dynamic"),
            Value::Unplanned => f.write_str("unplanned"),
            Value::Size(n) => write!(f, "={n}"),
            Value::Pair(x, y) => write!(f, "{x} {y}"),
            Value::Sum(sum) => write!(f, "{sum:016x}"),
            Value::Counted(sum, n) => write!(f, "{sum:016x} {n}"),
            Value::Field(def) => write_field(f, *def),
            Value::State(state) => write_state(f, *state),
        }
    }
}
