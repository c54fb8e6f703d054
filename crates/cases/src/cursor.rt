// The words of the field cursor.
use crate::answer::{Answer, Unanswered, Value};
use crate::given;
use crate::given::Line;
use crate::layouts::Last;
use caseline::put::Hex;
use cursor_rules::{FieldCursor, Times};
use field::FieldDef;
use limits::refusal::Refusal;
use tuppenceowl::building;

const ROWS_SIZE: usize = field::SIZE * limits::MAX_FIELDS;

const NAMES_SIZE: usize = layout::block::NAME * limits::MAX_FIELDS;

// The fields of a record that is built, and their names.
#[derive(Drop)]
pub struct Built {
    cursor: FieldCursor,
    rows: [u8; ROWS_SIZE],
    names: [u8; NAMES_SIZE],
}

// A field that a line gives: of its 16 bytes each call takes what it needs.
#[derive(Clone, Copy)]
struct Given<'a> {
    def: FieldDef,
    name: &'a [u8],
}

impl<'a> Given<'a> {
    fn of(line: Line<'a>) -> Self {
        Given {
            def: field::field_at(line.bytes(1), 0),
            name: line.bytes(2),
        }
    }
}

impl Built {
    // Before a line begins it, a cursor has no room.
    pub fn new() -> Self {
        Built {
            cursor: FieldCursor {
                most: 0,
                count: 0,
                cursor: 0,
                base: 0,
                based: false,
            },
            rows: [0; ROWS_SIZE],
            names: [0; NAMES_SIZE],
        }
    }

    pub fn begin(&mut self, line: Line) -> Answer {
        let holder = line.holder(1).ok_or(Unanswered::Malformed)?;
        self.cursor = building::empty(holder);
        Ok(Value::Fine)
    }

    pub fn state(&self) -> Answer {
        Ok(Value::State(self.cursor))
    }

    // The bytes of the first fields and names, of which some may not be placed yet.
    pub fn rows(&self, fields: usize) -> Hex<'_> {
        Hex(lent::part(&self.rows, 0, field::SIZE * fields.min(limits::MAX_FIELDS)))
    }

    pub fn names(&self, fields: usize) -> Hex<'_> {
        Hex(lent::part(
            &self.names,
            0,
            layout::block::NAME * fields.min(limits::MAX_FIELDS),
        ))
    }

    // The state that a call leaves.
    fn moved(&mut self, placed: Result<FieldCursor, Refusal>) -> Answer {
        let cursor = placed?;
        self.cursor = cursor;
        Ok(Value::State(cursor))
    }

    pub fn scalar(&mut self, line: Line, last: &Last) -> Answer {
        let Given { def, name } = Given::of(line);
        let placed = building::scalar(
            last.catalogue(),
            &mut self.rows,
            &mut self.names,
            self.cursor,
            def.field_id,
            def.type_id,
            def.size,
            def.flags,
            def.def_index,
            name,
        );
        self.moved(placed)
    }

    pub fn string(&mut self, line: Line, last: &Last) -> Answer {
        let Given { def, name } = Given::of(line);
        let placed = building::string(
            last.catalogue(),
            &mut self.rows,
            &mut self.names,
            self.cursor,
            def.field_id,
            def.type_id,
            def.size,
            def.flags,
            name,
        );
        self.moved(placed)
    }

    pub fn like(&mut self, line: Line, last: &Last) -> Answer {
        let Given { def, name } = Given::of(line);
        let placed = building::like(
            last.catalogue(),
            &mut self.rows,
            &mut self.names,
            self.cursor,
            def,
            def.def_index,
            name,
        );
        self.moved(placed)
    }

    fn nest(&mut self, given: Given, last: &Last, times: Times) -> Answer {
        let placed = building::nested(
            last.catalogue(),
            last.layout(),
            &mut self.rows,
            &mut self.names,
            self.cursor,
            given.def.field_id,
            given.def.def_index,
            times,
            given.name,
        );
        self.moved(placed)
    }

    pub fn nested(&mut self, line: Line, last: &Last) -> Answer {
        self.nest(Given::of(line), last, Times::One)
    }

    // The size tells how often the struct stands in the array.
    pub fn nested_array(&mut self, line: Line, last: &Last) -> Answer {
        let given = Given::of(line);
        self.nest(given, last, Times::Array(given.def.size))
    }

    pub fn at(&mut self, line: Line, last: &Last) -> Answer {
        let offset = line.number(1);
        let cat = last.catalogue();
        let placed = building::at(cat, &mut self.rows, &mut self.names, self.cursor, offset);
        self.moved(placed)
    }

    pub fn finish_base(&mut self, last: &Last) -> Answer {
        let cat = last.catalogue();
        let placed = building::finish_base(cat, &mut self.rows, &mut self.names, self.cursor);
        self.moved(placed)
    }

    pub fn finish(&mut self, line: Line, last: &Last) -> Answer {
        let mut room = [0; given::MOST_IDS];
        let ids = given::ids(line.bytes(1), &mut room);
        let cat = last.catalogue();
        let placed = building::finish(cat, &mut self.rows, &mut self.names, self.cursor, ids);
        self.moved(placed)
    }
}
