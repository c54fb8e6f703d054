// What opens a record or a struct, and what closes it: the cursor finishes it, and it is packed into its block.
ghost use Rattle.std.specs.Prelude.{◌<◌, IfOk};

use crate::layouts::fault::{Fault, Flaw};
use crate::layouts::item::{Item, Part};
use crate::layouts::line::Line;
use crate::layouts::open_table::Table;
use field::Holder;
use owl_blocks::pack::Full;
use owl_blocks::room::{Room, Side};

#[derive(Drop)]
pub struct Open<'a> {
    // None of a struct, which belongs to both layouts.
    pub side: Option<Side>,
    // The line that opened it.
    line: Line<'a>,
    pub table: Table,
}

// ---- opening

// The number of one more, where a layout has so many and may have it.
fn next_of(line: Line<'_>, count: u8) -> Result<usize, Flaw<'_>>
    ensures { IfOk result (λ k. k < 16) }
{
    let k = usize::from(count);
    if k < limits::MAX_RECORDS {
        Ok(k)
    } else {
        Err(line.flaw(0, Fault::FullLayout))
    }
}

pub fn open_record<'a>(line: Line<'a>, side: Side, room: &mut Room) -> Result<Open<'a>, Flaw<'a>> {
    line.has_words(4, Item::Record(side))?;
    let name = line.name()?;
    let k = next_of(line, room.block(side).records)?;
    let rtype = line.number_at(2)?;
    let schema = line.number_at(3)?;
    match side {
        Side::Source => room.source.open_record(rtype, schema, name),
        Side::Target => {
            room.target.open_record(rtype, schema, name);
            room.defaults[k].line = line.number;
        }
    }
    Ok(Open {
        side: Some(side),
        line,
        table: Table::new(Holder::Record),
    })
}

pub fn open_struct<'a>(line: Line<'a>, room: &mut Room) -> Result<Open<'a>, Flaw<'a>> {
    line.has_words(2, Item::Struct)?;
    let name = line.name()?;
    next_of(line, room.source.structs)?;
    room.source.open_struct(name);
    room.target.open_struct(name);
    Ok(Open {
        side: None,
        line,
        table: Table::new(Holder::Struct),
    })
}

impl<'a> Open<'a> {
    // ---- where the next field stands

    pub fn at(&mut self, line: Line<'a>, cat: &[u8]) -> Result<(), Flaw<'a>> {
        let offset = line.only_number()?;
        self.table
            .at(cat, offset)
            .map_err(|refusal| line.flaw(1, Fault::Refused(refusal)))
    }

    // What follows is extension.
    pub fn base(&mut self, line: Line<'a>, cat: &[u8]) -> Result<(), Flaw<'a>> {
        line.has_words(1, Item::Part(Part::Base))?;
        self.table
            .finish_base(cat)
            .map_err(|refusal| line.flaw(0, Fault::Refused(refusal)))
    }

    // ---- closing

    fn pack(&self, room: &mut Room) -> Result<(), Full> {
        let table = &self.table;
        match self.side {
            Some(Side::Source) => {
                room.source
                    .close_record(table.base(), table.rows(), table.names())
            }
            Some(Side::Target) => {
                room.target
                    .close_record(table.base(), table.rows(), table.names())
            }
            None => {
                room.source.close_struct(table.size(), table.rows())?;
                room.target.close_struct(table.size(), table.rows())
            }
        }
    }

    // A fault of the whole is one of the line that opened it.
    pub fn close(mut self, room: &mut Room) -> Result<(), Flaw<'a>> {
        let line = self.line;
        self.table
            .finish(&room.catalogue)
            .map_err(|refusal| line.flaw(1, Fault::Refused(refusal)))?;
        self.pack(room).map_err(|_| line.flaw(1, Fault::FullRoom))
    }
}
