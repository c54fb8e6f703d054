// The words, each with what has to stand behind it.
use crate::given::Line;

#[derive(Clone, Copy, Debug, PartialEq, Eq)]
pub enum Word {
    Scalar,
    String,
    Like,
    Nested,
    NestedArray,
    At,
    FinishBase,
    Finish,
    Plan,
    Put,
    Apply,
    Upgrade,
    Catalogue,
    Layout,
    Size,
    Window,
    Field,
    Sum,
    Slots,
    Hash,
    Visits,
    Boot,
    Verdict,
    VerdictOf,
    ById,
    ByName,
    Select,
    Begin,
    Built,
    WritePlan,
    ReadPlan,
}

// What a word of a line may be.
#[derive(Clone, Copy, Debug, PartialEq, Eq)]
enum Kind {
    // A number, and its largest.
    Number(usize),
    // Bytes in hex, and the most of them.
    Hex(usize),
    // A number of two bytes, or a dash.
    Schema,
    // What a cursor may begin.
    Holder,
    // Any words, or none.
    Rest,
}

// The most bytes that a word names: those of most words, of a plan's default body and of its marks, of a plan's steps or
// body, of a target and of a catalogue.
pub const HEX_SIZE: usize = 32768;

pub const BODY_SIZE: usize = 4224;

pub const MARKS_SIZE: usize = 256;

pub const STEPS_SIZE: usize = 4096;

pub const TARGET_SIZE: usize = 5120;

pub const CATALOGUE_SIZE: usize = 1024;

// The most room that is lent for a text or a plan.
pub const ROOM_SIZE: usize = 16384;

const NUMBER: Kind = Kind::Number(999999999);

const MOST_SHORT: usize = 65535;

const SHORT: Kind = Kind::Number(MOST_SHORT);

const HEX: Kind = Kind::Hex(HEX_SIZE);

const FIELD: Kind = Kind::Hex(field::SIZE);

const BODY: Kind = Kind::Hex(BODY_SIZE);

const MARKS: Kind = Kind::Hex(MARKS_SIZE);

const TARGET: Kind = Kind::Hex(TARGET_SIZE);

const ROOM: Kind = Kind::Number(ROOM_SIZE);

fn is_at_most(word: &[u8], most: usize) -> bool {
    caseline::number(word).is_some_and(|n| n <= most)
}

impl Kind {
    fn takes(self, line: Line, k: usize, room: &mut [u8]) -> bool {
        let word = line.word(k);
        match self {
            Kind::Number(most) => is_at_most(word, most),
            Kind::Hex(most) => word.len() / 2 <= most && line.decode(k, room),
            Kind::Schema => word == b"-".as_slice() || is_at_most(word, MOST_SHORT),
            Kind::Holder => line.holder(k).is_some(),
            Kind::Rest => true,
        }
    }
}

// Whether these kinds, and nothing else, stand behind the line's first word. Those in hex are decoded.
fn is_shaped(line: Line, room: &mut [u8], kinds: &[Kind]) -> bool {
    let is_open = kinds.contains(&Kind::Rest);
    (is_open || caseline::words(line.text) == kinds.len() + 1)
        && kinds
            .iter()
            .enumerate()
            .all(|(k, kind)| kind.takes(line, k + 1, room))
}

impl Word {
    fn named(name: &[u8]) -> Option<Self> {
        match name {
            b"scalar" => Some(Word::Scalar),
            b"string" => Some(Word::String),
            b"like" => Some(Word::Like),
            b"nested" => Some(Word::Nested),
            b"nested_array" => Some(Word::NestedArray),
            b"at" => Some(Word::At),
            b"finish_base" => Some(Word::FinishBase),
            b"finish" => Some(Word::Finish),
            b"plan" => Some(Word::Plan),
            b"put" => Some(Word::Put),
            b"apply" => Some(Word::Apply),
            b"upgrade" => Some(Word::Upgrade),
            b"catalogue" => Some(Word::Catalogue),
            b"layout" => Some(Word::Layout),
            b"size" => Some(Word::Size),
            b"window" => Some(Word::Window),
            b"field" => Some(Word::Field),
            b"sum" => Some(Word::Sum),
            b"slots" => Some(Word::Slots),
            b"hash" => Some(Word::Hash),
            b"visits" => Some(Word::Visits),
            b"boot" => Some(Word::Boot),
            b"verdict" => Some(Word::Verdict),
            b"verdict_of" => Some(Word::VerdictOf),
            b"by_id" => Some(Word::ById),
            b"by_name" => Some(Word::ByName),
            b"select" => Some(Word::Select),
            b"begin" => Some(Word::Begin),
            b"built" => Some(Word::Built),
            b"write_plan" => Some(Word::WritePlan),
            b"read_plan" => Some(Word::ReadPlan),
            _ => None,
        }
    }

    // Whether what it takes stands behind it, and nothing else.
    fn fits(self, line: Line, room: &mut [u8]) -> bool {
        match self {
            Word::Scalar | Word::String | Word::Like | Word::Nested | Word::NestedArray => {
                is_shaped(line, room, &[FIELD, HEX])
            }
            Word::At | Word::Size | Word::Hash | Word::Boot => is_shaped(line, room, &[NUMBER]),
            Word::FinishBase => is_shaped(line, room, &[]),
            Word::Finish | Word::Layout | Word::Sum => is_shaped(line, room, &[HEX]),
            Word::Plan => is_shaped(
                line,
                room,
                &[NUMBER, NUMBER, NUMBER, BODY, MARKS, NUMBER, NUMBER, HEX],
            ),
            Word::Put | Word::Verdict => is_shaped(line, room, &[NUMBER, HEX]),
            Word::Apply => is_shaped(line, room, &[NUMBER, NUMBER, HEX, NUMBER, TARGET]),
            Word::Upgrade => is_shaped(
                line,
                room,
                &[NUMBER, HEX, SHORT, NUMBER, NUMBER, HEX, NUMBER, TARGET],
            ),
            Word::Catalogue => is_shaped(line, room, &[Kind::Hex(CATALOGUE_SIZE)]),
            Word::Window => is_shaped(line, room, &[HEX, NUMBER, NUMBER]),
            Word::Field => is_shaped(line, room, &[HEX, NUMBER]),
            Word::Slots | Word::Visits => is_shaped(line, room, &[NUMBER, NUMBER]),
            Word::VerdictOf | Word::ByName => is_shaped(line, room, &[SHORT, HEX]),
            Word::ById => is_shaped(line, room, &[SHORT, SHORT]),
            Word::Select => is_shaped(line, room, &[NUMBER, Kind::Schema, HEX]),
            Word::Begin => is_shaped(line, room, &[Kind::Holder, Kind::Rest]),
            Word::Built => is_shaped(line, room, &[Kind::Number(limits::MAX_FIELDS), Kind::Rest]),
            Word::WritePlan => is_shaped(line, room, &[ROOM, NUMBER, HEX, Kind::Hex(STEPS_SIZE)]),
            Word::ReadPlan => is_shaped(line, room, &[ROOM, HEX]),
        }
    }

    // Which word a line has; one with something else behind it is malformed, and none.
    pub fn of(line: Line, room: &mut [u8]) -> Option<Self> {
        Word::named(line.word(0)).filter(|word| word.fits(line, room))
    }
}
