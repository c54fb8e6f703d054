// What may be wrong with a line, and what was expected.
use std::fmt;

/// A flaw of a line, or of one of its words: the first word is what the line is called, the words behind it are its fields.
#[derive(Clone, Copy, Debug, PartialEq, Eq)]
pub enum Flaw {
    // Form.
    PlanWord,
    BodyWord,
    StepWord,
    Words,
    Number { field: usize },
    Edition,
    Hex,
    Sign,
    Mark,
    Missing,
    NoNewline,
    // Rules.
    Head,
    BodyLength,
    StepCount,
    SourceEnd,
    Order,
    TargetEnd,
    Empty,
    Widths,
    Narrows,
}

impl Flaw {
    // The field behind the first word where one is meant.
    fn field(self) -> Option<usize> {
        match self {
            Flaw::Number { field } => Some(field),
            Flaw::Edition | Flaw::Hex | Flaw::BodyLength | Flaw::SourceEnd => Some(1),
            Flaw::Order | Flaw::TargetEnd => Some(2),
            Flaw::Empty | Flaw::Widths => Some(3),
            Flaw::Narrows => Some(4),
            Flaw::Sign => Some(5),
            Flaw::Mark => Some(6),
            _ => None,
        }
    }

    fn message(self) -> &'static str {
        match self {
            Flaw::PlanWord => "expected 'plan', the edition 1 and seven numbers, parted by tabs",
            Flaw::BodyWord => "expected 'body', a tab and hex",
            Flaw::StepWord => "expected a step, 'copy' or 'int'",
            Flaw::Words => "another number of words than this line has in a plan",
            Flaw::Number { .. } => "expected a number up to 65535, without leading zeros",
            Flaw::Edition => "expected the edition 1",
            Flaw::Hex => "expected bytes in hex, two of 0-9 a-f each",
            Flaw::Sign => "expected u or s",
            Flaw::Mark => "expected 0 or 1",
            Flaw::Missing => "the text ends before this line",
            Flaw::NoNewline => "the last line lacks its end",
            Flaw::Head => {
                "expected bases and size up to 4096, header up to 64 and the size, 128 steps at most"
            }
            Flaw::BodyLength => {
                "expected two digits a byte, from the header's length to the record size"
            }
            Flaw::StepCount => {
                "the text ends with another number of steps than its first line says"
            }
            Flaw::SourceEnd => "the step reads past byte 4096",
            Flaw::Order => "the step begins before the header's end or the last step's",
            Flaw::TargetEnd => "the step ends past the record size",
            Flaw::Empty => "expected a size of at least 1",
            Flaw::Widths => "expected two different sizes out of 1, 2, 4 and 8",
            Flaw::Narrows => "an integer without a mark gets wider, not narrower",
        }
    }
}

impl fmt::Display for Flaw {
    fn fmt<W: fmt::Write>(&self, f: &mut fmt::Formatter<W>) -> fmt::Result {
        if let Some(field) = self.field() {
            write!(f, "field {field}: ")?;
        }
        let message = self.message();
        write!(f, "no plan (r16): {message}")
    }
}
