// The items of a text of layouts.
use owl_blocks::room::Side;

// What belongs to the record or the struct that is open.
#[derive(Clone, Copy, Debug, PartialEq, Eq)]
pub enum Part {
    Field,
    At,
    Base,
}

#[derive(Clone, Copy, Debug, PartialEq, Eq)]
pub enum Item {
    Record(Side),
    Struct,
    Plan,
    Part(Part),
    Header,
    Wanted,
    Catalogue,
}

impl Item {
    pub fn from_word(word: &[u8]) -> Option<Item> {
        match word {
            b"source" => Some(Item::Record(Side::Source)),
            b"target" => Some(Item::Record(Side::Target)),
            b"struct" => Some(Item::Struct),
            b"plan" => Some(Item::Plan),
            b"field" => Some(Item::Part(Part::Field)),
            b"at" => Some(Item::Part(Part::At)),
            b"base" => Some(Item::Part(Part::Base)),
            b"header" => Some(Item::Header),
            b"wanted" => Some(Item::Wanted),
            b"catalogue" => Some(Item::Catalogue),
            _ => None,
        }
    }

    // How the item is written.
    pub fn form(self) -> &'static str {
        match self {
            Item::Record(Side::Source) => "source NAME RTYPE SCHEMA",
            Item::Record(Side::Target) => "target NAME RTYPE SCHEMA",
            Item::Struct => "struct NAME",
            Item::Plan => "plan SOURCE TARGET",
            Item::Part(Part::Field) => "field NAME ID TYPE [N] [mark] [default HEX]",
            Item::Part(Part::At) => "at OFFSET",
            Item::Part(Part::Base) => "base",
            Item::Header => "header BYTES",
            Item::Wanted => "wanted SCHEMA",
            Item::Catalogue => "catalogue HEX",
        }
    }
}
