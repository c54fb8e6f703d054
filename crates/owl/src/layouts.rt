// A text of layouts, as people write them (docs/OWL.md): items, one a line, read into the bytes that the public calls take.
mod default_bytes;
pub mod fault;
mod fields;
mod item;
pub mod line;
mod open_table;
mod settings;
mod whole;

use fault::{Fault, Flaw};
use item::{Item, Part};
use line::Line;
use owl_blocks::room::{Room, Side};
use whole::Open;

const NEWLINE: u8 = b'\n';

// Which records the plan is between, by their numbers.
#[derive(Clone, Copy)]
pub struct Chosen {
    pub source: usize,
    pub target: usize,
}

// A line 'header': the length of the target's header, and where it stands.
#[derive(Clone, Copy)]
pub struct Header {
    pub bytes: u16,
    pub line: usize,
}

// What is read so far, besides what is in the room.
#[derive(Drop)]
pub struct Layouts<'a> {
    // How many lines.
    pub lines: usize,
    open: Option<Open<'a>>,
    pub header: Option<Header>,
    // The schema that is wanted, if one is.
    pub wanted: Option<u16>,
    // The records that the plan is between, if the text says so.
    pub chosen: Option<Chosen>,
}

// How many lines have the item: that many of it there will be, which decides where the tables begin.
fn count(text: &[u8], item: Item) -> u8 {
    let found = text
        .split(|&byte| byte == NEWLINE)
        .filter(|line| Line::new(0, line).item() == Some(item))
        .count();
    u8::try_from(found).unwrap_or(u8::MAX)
}

// The room for the text's layouts. Made where it stays, for it is large to move.
#[inline(always)]
pub fn room_of(text: &[u8]) -> Room {
    let sources = count(text, Item::Record(Side::Source));
    let targets = count(text, Item::Record(Side::Target));
    let structs = count(text, Item::Struct);
    Room::new(sources, targets, structs)
}

// The text's layouts, or the first flaw in it. The room is the text's own.
pub fn read<'a>(text: &'a [u8], room: &mut Room) -> Result<Layouts<'a>, Flaw<'a>> {
    let mut layouts = Layouts {
        lines: 0,
        open: None,
        header: None,
        wanted: None,
        chosen: None,
    };
    for line in text.split_inclusive(|&byte| byte == NEWLINE) {
        let number = layouts.lines.saturating_add(1);
        layouts.lines = number;
        let content = line.strip_suffix(&[NEWLINE]).unwrap_or(line);
        layouts.take(Line::new(number, content), room)?;
    }
    layouts.close(room)?;
    Ok(layouts)
}

impl<'a> Layouts<'a> {
    fn take(&mut self, line: Line<'a>, room: &mut Room) -> Result<(), Flaw<'a>> {
        let Some(item) = line.item() else {
            // A line that has no item is blank.
            return match line.words() {
                0 => Ok(()),
                _ => Err(line.flaw(0, Fault::NoItem)),
            };
        };
        match item {
            Item::Record(side) => {
                self.close(room)?;
                self.open = Some(whole::open_record(line, side, room)?);
            }
            Item::Struct => {
                self.close(room)?;
                self.open = Some(whole::open_struct(line, room)?);
            }
            Item::Plan => {
                self.close(room)?;
                self.chosen = Some(settings::plan(line, room)?);
            }
            Item::Part(part) => self.take_part(line, part, room)?,
            Item::Header => self.header = Some(settings::header(line)?),
            Item::Wanted => self.wanted = Some(line.only_number()?),
            Item::Catalogue => self.take_catalogue(line, room)?,
        }
        Ok(())
    }

    fn take_part(&mut self, line: Line<'a>, part: Part, room: &mut Room) -> Result<(), Flaw<'a>> {
        let Some(open) = &mut self.open else {
            return Err(line.flaw(0, Fault::NotOpen));
        };
        match part {
            Part::Field => fields::take(line, room, open),
            Part::At => open.at(line, &room.catalogue),
            Part::Base => open.base(line, &room.catalogue),
        }
    }

    // It stands before all that it decides.
    fn take_catalogue(&self, line: Line<'a>, room: &mut Room) -> Result<(), Flaw<'a>> {
        let closed = room.source.records | room.target.records | room.source.structs;
        if self.open.is_some() | (closed != 0) {
            return Err(line.flaw(0, Fault::Late));
        }
        settings::catalogue(line, &mut room.catalogue)
    }

    // Finishes what is open.
    fn close(&mut self, room: &mut Room) -> Result<(), Flaw<'a>> {
        match self.open.take() {
            Some(open) => open.close(room),
            None => Ok(()),
        }
    }
}
