// The types that a line may name, with dbn's names and the numbers of the catalogue that is built in.
ghost use Rattle.std.specs.Prelude.{◌≡◌, ◌/◌, ◌%◌};
ghost use Rattle.owl_blocks.specs.Kinds.{class_of};

// The numbers that a type may have. Behind their kinds the catalogue has the flag of an array.
pub const TYPES: usize = 256;

pub const CATALOGUE: usize = TYPES + 6;

// The classes that a line's words depend on.
#[derive(Clone, Copy, Debug, PartialEq, Eq)]
pub enum Class {
    Unsigned,
    Signed,
    Text,
    Other,
}

// What the catalogue says of a type, in one byte: 16 x class + width.
#[derive(Clone, Copy, Debug, PartialEq, Eq)]
pub struct Kind {
    pub class: Class,
    pub width: u8,
}

impl From<u8> for Kind {
    ghost from_gives = { λ byte kind. (kind.class ≡ class_of (byte / 16)) × (kind.width ≡ byte % 16) };

    fn from(byte: u8) -> Kind {
        let class = match byte / 16 {
            1 => Class::Unsigned,
            2 => Class::Signed,
            4 => Class::Text,
            _ => Class::Other,
        };
        Kind {
            class,
            width: byte % 16,
        }
    }
}

// The type's number; one of another catalogue is named by its number.
pub fn of_word(word: &[u8]) -> Option<u8> {
    let id = match word {
        b"u8" => 0x01,
        b"u16" => 0x02,
        b"u32" => 0x03,
        b"u64" => 0x04,
        b"i8" => 0x11,
        b"i16" => 0x12,
        b"i32" => 0x13,
        b"i64" => 0x14,
        b"price" => 0x21,
        b"cstr" => 0x31,
        b"symbol" => 0x32,
        b"char" => 0x60,
        b"timestamp" => 0x6a,
        b"enum16" => 0x61,
        b"enumchar" => 0x62,
        b"enum8" => 0x63,
        b"bits8" => 0x64,
        b"bits16" => 0x65,
        b"bits32" => 0x66,
        b"bits64" => 0x67,
        b"f32" => 0x68,
        b"f64" => 0x69,
        _ => return u8::try_from(caseline::number(word)?).ok(),
    };
    Some(id)
}

// The catalogue that is built in: the kind at each number, sixteen in a row; then the flags (docs/FORMATS.md).
pub const BUILT_IN: &[u8; CATALOGUE] = b"\
    \x00\x11\x12\x14\x18\x00\x00\x00\x00\x00\x00\x00\x00\x00\x00\x00\
    \x00\x21\x22\x24\x28\x00\x00\x00\x00\x00\x00\x00\x00\x00\x00\x00\
    \x00\x38\x00\x00\x00\x00\x00\x00\x00\x00\x00\x00\x00\x00\x00\x00\
    \x00\x40\x40\x00\x00\x00\x00\x00\x00\x00\x00\x00\x00\x00\x00\x00\
    \x00\x50\x00\x00\x00\x00\x00\x00\x00\x00\x00\x00\x00\x00\x00\x00\
    \x60\x00\x00\x00\x00\x00\x00\x00\x00\x00\x00\x00\x00\x00\x00\x00\
    \x01\x02\x01\x01\x01\x02\x04\x08\x04\x08\x08\x00\x00\x00\x00\x00\
    \x00\x00\x00\x00\x00\x00\x00\x00\x00\x00\x00\x00\x00\x00\x00\x00\
    \x00\x00\x00\x00\x00\x00\x00\x00\x00\x00\x00\x00\x00\x00\x00\x00\
    \x00\x00\x00\x00\x00\x00\x00\x00\x00\x00\x00\x00\x00\x00\x00\x00\
    \x00\x00\x00\x00\x00\x00\x00\x00\x00\x00\x00\x00\x00\x00\x00\x00\
    \x00\x00\x00\x00\x00\x00\x00\x00\x00\x00\x00\x00\x00\x00\x00\x00\
    \x00\x00\x00\x00\x00\x00\x00\x00\x00\x00\x00\x00\x00\x00\x00\x00\
    \x00\x00\x00\x00\x00\x00\x00\x00\x00\x00\x00\x00\x00\x00\x00\x00\
    \x00\x00\x00\x00\x00\x00\x00\x00\x00\x00\x00\x00\x00\x00\x00\x00\
    \x00\x00\x00\x00\x00\x00\x00\x00\x00\x00\x00\x00\x00\x00\x00\x00\
    \x80\x40\x01\x00\x00\x00";
