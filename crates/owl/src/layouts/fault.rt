// What may be wrong with a text, and where.
use crate::layouts::item::Item;
use crate::layouts::line::Line;
use limits::refusal::Refusal;
use owl_say::refusals::Numbered;
use std::fmt;

#[derive(Clone, Copy, Debug, PartialEq, Eq)]
pub enum Fault {
    // By a public call.
    Refused(Refusal),
    // Words.
    NoItem,
    TooFew(Item),
    TooMany(Item),
    NoNumber,
    NoHex,
    LongName,
    NoType,
    NoCount,
    NotOptional,
    // What an item asks of the items before it.
    NotOpen,
    NoSuch,
    FullLayout,
    FullRoom,
    NoMark,
    NoDefault,
    DefaultLength,
    CatalogueLength,
    Late,
}

impl fmt::Display for Fault {
    fn fmt<W: fmt::Write>(&self, f: &mut fmt::Formatter<W>) -> fmt::Result {
        f.write_str(match self {
            Fault::Refused(refusal) => return write!(f, "{}", Numbered(*refusal)),
            Fault::TooFew(item) => {
                return write!(f, "a word is missing; expected {}", item.form());
            }
            Fault::TooMany(item) => {
                return write!(f, "a word too many; expected {}", item.form());
            }
            Fault::NoItem => {
                "no item; expected source target struct field at base header wanted plan catalogue"
            }
            Fault::NoNumber => "expected one number, from 0 to 65535",
            Fault::NoHex => "expected bytes in hex, two of 0-9 a-f each",
            Fault::LongName => "a name has at most 32 bytes",
            Fault::NoType => {
                "no type; expected u8 u16 u32 u64 i8 i16 i32 i64 f32 f64 price timestamp char\n\x20 \
                cstr symbol enum8 enum16 enumchar bits8 bits16 bits32 bits64, a type's number,\n\x20 \
                or a struct that is closed above"
            }
            Fault::NoCount => {
                "expected how many, from 1 to 4096: a string's bytes, an array's elements"
            }
            Fault::NotOptional => {
                "expected how many, then 'mark', then 'default' with hex, or less"
            }
            Fault::NotOpen => {
                "stands in no record; expected after a line 'source', 'target' or 'struct'"
            }
            Fault::NoSuch => "no record above has this name",
            Fault::FullLayout => "a layout has at most 16 records and 16 structs",
            Fault::FullRoom => "the layouts take more than 65535 bytes",
            Fault::NoMark => "only an integer that is no array has a mark",
            Fault::NoDefault => "only a target's field has a mark or a default",
            Fault::DefaultLength => "expected as many bytes in hex as the field has",
            Fault::CatalogueLength => "expected 262 bytes in hex",
            Fault::Late => "expected before the first 'source', 'target' or 'struct'",
        })
    }
}

// A fault, and with which word of its line, counted from 0: the item's own.
#[derive(Clone, Copy)]
pub struct Flaw<'a> {
    pub line: Line<'a>,
    pub word: usize,
    pub fault: Fault,
}
