// The fields of the record or the struct that is open, as the field cursor lays them. A refused call leaves them as they were.
ghost use Rattle.std.specs.Prelude.{◌<◌, ◌≤◌};

use cursor_rules::{FieldCursor, Times};
use field::{FieldDef, Holder};
use layout::block;
use limits::refusal::Refusal;
use tuppenceowl::building;

const ROWS: usize = field::SIZE * limits::MAX_FIELDS;

const NAMES: usize = block::NAME * limits::MAX_FIELDS;

#[derive(Drop)]
pub struct Table {
    cursor: FieldCursor,
    rows: [u8; ROWS],
    names: [u8; NAMES],
}

impl Table {
    pub fn new(holder: Holder) -> Self {
        Table {
            cursor: building::empty(holder),
            rows: [0; ROWS],
            names: [0; NAMES],
        }
    }

    // ---- the calls of the field cursor

    pub fn at(&mut self, cat: &[u8], offset: u16) -> Result<(), Refusal> {
        let to = usize::from(offset);
        self.cursor = building::at(cat, &mut self.rows, &mut self.names, self.cursor, to)?;
        Ok(())
    }

    pub fn finish_base(&mut self, cat: &[u8]) -> Result<(), Refusal> {
        self.cursor = building::finish_base(cat, &mut self.rows, &mut self.names, self.cursor)?;
        Ok(())
    }

    pub fn finish(&mut self, cat: &[u8]) -> Result<(), Refusal> {
        self.cursor = building::finish(cat, &mut self.rows, &mut self.names, self.cursor, &[])?;
        Ok(())
    }

    pub fn nested(
        &mut self,
        cat: &[u8],
        layout: &[u8],
        id: u16,
        k: u8,
        times: Times,
        name: &[u8],
    ) -> Result<(), Refusal> {
        let (rows, names) = (&mut self.rows, &mut self.names);
        let k = u16::from(k);
        self.cursor = building::nested(cat, layout, rows, names, self.cursor, id, k, times, name)?;
        Ok(())
    }

    pub fn string(
        &mut self,
        cat: &[u8],
        id: u16,
        type_id: u8,
        size: u16,
        name: &[u8],
    ) -> Result<(), Refusal> {
        let (rows, names) = (&mut self.rows, &mut self.names);
        self.cursor = building::string(cat, rows, names, self.cursor, id, type_id, size, 0, name)?;
        Ok(())
    }

    pub fn scalar(
        &mut self,
        cat: &[u8],
        id: u16,
        type_id: u8,
        size: u16,
        flags: u8,
        name: &[u8],
    ) -> Result<(), Refusal> {
        let (rows, names) = (&mut self.rows, &mut self.names);
        self.cursor = building::scalar(
            cat,
            rows,
            names,
            self.cursor,
            id,
            type_id,
            size,
            flags,
            0,
            name,
        )?;
        Ok(())
    }

    // ---- what is laid

    fn count(&self) -> usize
        ensures { result ≤ 128 }
    {
        self.cursor.count.min(limits::MAX_FIELDS)
    }

    // Which row is the last field's.
    pub fn last_row(&self) -> usize
        ensures { result < 128 }
    {
        self.count().saturating_sub(1)
    }

    pub fn last(&self) -> FieldDef {
        field::field_at(&self.rows, field::SIZE * self.last_row())
    }

    pub fn rows(&self) -> &[u8] {
        &self.rows[..field::SIZE * self.count()]
    }

    pub fn names(&self) -> &[u8] {
        &self.names[..block::NAME * self.count()]
    }

    pub fn base(&self) -> usize {
        self.cursor.base
    }

    // Where the next field would stand, and in the end the size of the whole.
    pub fn size(&self) -> usize {
        self.cursor.cursor
    }
}
