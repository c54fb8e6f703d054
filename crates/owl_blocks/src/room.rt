// One room for all that a text of layouts is read into.
ghost use Rattle.std.specs.Prelude.{◌≡◌, ◌+◌, ◌*◌};
ghost use Rattle.owl_blocks.specs.Whole.{block_of};

use crate::pack::Block;
use crate::types;
use std::fmt;

#[derive(Clone, Copy, Debug, PartialEq, Eq)]
pub enum Side {
    Source,
    Target,
}

impl fmt::Display for Side {
    fn fmt<W: fmt::Write>(&self, f: &mut fmt::Formatter<W>) -> fmt::Result {
        f.write_str(match self {
            Side::Source => "source",
            Side::Target => "target",
        })
    }
}

// What a target record has besides its block.
#[derive(Clone, Copy)]
pub struct Defaults {
    // The default of each byte, by offset.
    pub bytes: [u8; limits::MAX_BYTES],
    // A mark for each field.
    pub marks: [u8; limits::MAX_FIELDS],
    // The line that opened it, for a message.
    pub line: usize,
}

#[derive(Clone, Copy)]
pub struct Room {
    pub catalogue: [u8; types::CATALOGUE],
    pub source: Block,
    pub target: Block,
    pub defaults: [Defaults; limits::MAX_RECORDS],
}

impl Room {
    // Of so many records and structs, which decides where the tables begin. Made where it stays, for it is large to move.
    #[inline(always)]
    pub fn new(sources: u8, targets: u8, structs: u8) -> Self
        ensures source { result.source.end ≡ 8 + 72 * sources + 48 * structs }
        ensures target { result.target.end ≡ 8 + 72 * targets + 48 * structs }
    {
        let none = Defaults {
            bytes: [0; limits::MAX_BYTES],
            marks: [0; limits::MAX_FIELDS],
            line: 0,
        };
        Room {
            catalogue: *types::BUILT_IN,
            source: Block::new(sources, structs),
            target: Block::new(targets, structs),
            defaults: [none; limits::MAX_RECORDS],
        }
    }

    pub fn block(&self, side: Side) -> &Block
        ensures { result.now ≡ block_of side self.now }
    {
        match side {
            Side::Source => &self.source,
            Side::Target => &self.target,
        }
    }
}
