// The item 'field': its words, the call of the field cursor, and what a target's field has besides.
use crate::layouts::default_bytes;
use crate::layouts::fault::{Fault, Flaw};
use crate::layouts::item::{Item, Part};
use crate::layouts::line::Line;
use crate::layouts::open_table::Table;
use crate::layouts::whole::Open;
use cursor_rules::Times;
use field::Holder;
use limits::refusal::Refusal;
use owl_blocks::room::{Room, Side};
use owl_blocks::types;
use owl_blocks::types::{Class, Kind};

// Words of the shortest line, and where the first word that may be left out stands.
const SHORTEST: usize = 4;

// The longest array or string.
const MOST: u16 = limits::MAX_BYTES as u16;

// ---- the words

// The words that may be left out.
#[derive(Clone, Copy)]
struct Options {
    // How many bytes a string has, or elements an array.
    count: Option<u16>,
    marked: bool,
    defaulted: bool,
    // How many words the line should have.
    end: usize,
}

impl Options {
    fn of(line: Line<'_>) -> Options {
        let number = caseline::number(line.word(SHORTEST));
        let count = number.map(|n| u16::try_from(n).unwrap_or(u16::MAX));
        let at = SHORTEST + usize::from(count.is_some());
        let marked = matches!(line.word(at), b"mark");
        let next = at + usize::from(marked);
        let defaulted = matches!(line.word(next), b"default");
        let end = if defaulted { next + 2 } else { next };
        Options {
            count,
            marked,
            defaulted,
            end,
        }
    }
}

#[derive(Clone, Copy)]
enum Type {
    // Of the catalogue, by its number.
    Plain(u8, Kind),
    // A closed struct, by its number.
    Struct(u8),
}

fn type_of(word: &[u8], room: &Room) -> Option<Type> {
    match types::of_word(word) {
        Some(id) => Some(Type::Plain(id, Kind::from(room.catalogue[usize::from(id)]))),
        None => room.source.named(Holder::Struct, word).map(Type::Struct),
    }
}

// What the words of a line say.
#[derive(Clone, Copy)]
struct Field<'a> {
    name: &'a [u8],
    id: u16,
    of: Type,
    count: Option<u16>,
}

fn has_words(line: Line<'_>, end: usize) -> Result<(), Flaw<'_>> {
    let n = line.words();
    if n < end {
        return Err(line.flaw(n, Fault::TooFew(Item::Part(Part::Field))));
    }
    if end < n {
        return Err(line.flaw(end, Fault::NotOptional));
    }
    Ok(())
}

fn field_of<'a>(line: Line<'a>, options: &Options, room: &Room) -> Result<Field<'a>, Flaw<'a>> {
    has_words(line, options.end)?;
    let name = line.name()?;
    if options.count.is_some_and(|count| MOST < count) {
        return Err(line.flaw(SHORTEST, Fault::NoCount));
    }
    let Some(of) = type_of(line.word(3), room) else {
        return Err(line.flaw(3, Fault::NoType));
    };
    let is_text = matches!(of, Type::Plain(_, kind) if kind.class == Class::Text);
    if is_text & options.count.is_none() {
        return Err(line.flaw(SHORTEST, Fault::NoCount));
    }
    Ok(Field {
        name,
        id: line.number_at(2)?,
        of,
        count: options.count,
    })
}

// ---- the call, and the target's mark and default

impl Field<'_> {
    // What no scalar has as its width is refused by the call.
    fn size(&self, width: u8) -> u16 {
        let wide = match width {
            1 | 2 | 4 => u16::from(width),
            _ => 8,
        };
        wide.saturating_mul(self.count.unwrap_or(1))
    }

    fn place(&self, room: &Room, table: &mut Table) -> Result<(), Refusal> {
        let cat = &room.catalogue;
        match self.of {
            Type::Struct(k) => {
                let times = self.count.map_or(Times::One, Times::Array);
                table.nested(cat, &room.source.bytes, self.id, k, times, self.name)
            }
            Type::Plain(id, kind) if kind.class == Class::Text => {
                table.string(cat, self.id, id, self.count.unwrap_or(1), self.name)
            }
            Type::Plain(id, kind) => {
                let array = cat[types::TYPES];
                let flags = if self.count.is_some() { array } else { 0 };
                table.scalar(cat, self.id, id, self.size(kind.width), flags, self.name)
            }
        }
    }

    // The kind of an integer that is no array, which alone has a mark.
    fn markable(&self) -> Option<Kind> {
        match (self.of, self.count) {
            (Type::Plain(_, kind), None) => Some(kind),
            _ => None,
        }
    }
}

fn keep<'a>(
    line: Line<'a>,
    options: &Options,
    field: &Field<'a>,
    room: &mut Room,
    open: &Open<'a>,
) -> Result<(), Flaw<'a>> {
    if !(options.marked | options.defaulted) {
        return Ok(());
    }
    let k = usize::from(room.target.records);
    let (Some(Side::Target), Some(defaults)) = (open.side, room.defaults.get_mut(k)) else {
        return Err(line.flaw(SHORTEST, Fault::NoDefault));
    };
    if options.marked {
        field
            .markable()
            .and_then(|kind| default_bytes::mark(defaults, &open.table, kind))
            .ok_or(line.flaw(3, Fault::NoMark))?;
    }
    if options.defaulted {
        default_bytes::put(line, options.end, defaults, &open.table)?;
    }
    Ok(())
}

pub fn take<'a>(line: Line<'a>, room: &mut Room, open: &mut Open<'a>) -> Result<(), Flaw<'a>> {
    let options = Options::of(line);
    let field = field_of(line, &options, room)?;
    field
        .place(room, &mut open.table)
        .map_err(|refusal| line.flaw(3, Fault::Refused(refusal)))?;
    keep(line, &options, &field, room, open)
}
