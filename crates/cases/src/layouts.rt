// The words that ask for admission, a record's size, a window and a field of a table.
use crate::answer::{Answer, Unanswered, Value};
use crate::given::{Bytes, Line};
use crate::words::{CATALOGUE_SIZE, HEX_SIZE};

// The last catalogue and the last layout of the lines.
#[derive(Drop)]
pub struct Last {
    catalogue: Bytes<CATALOGUE_SIZE>,
    layout: Bytes<HEX_SIZE>,
}

impl Last {
    pub fn new() -> Self {
        Last {
            catalogue: Bytes::new(),
            layout: Bytes::new(),
        }
    }

    pub fn catalogue(&self) -> &[u8] {
        self.catalogue.as_slice()
    }

    pub fn layout(&self) -> &[u8] {
        self.layout.as_slice()
    }

    pub fn keep_catalogue(&mut self, line: Line) -> Answer {
        self.catalogue.keep(line.bytes(1));
        tuppenceowl::check_catalogue(self.catalogue())?;
        Ok(Value::Fine)
    }

    pub fn keep_layout(&mut self, line: Line) -> Answer {
        self.layout.keep(line.bytes(1));
        tuppenceowl::admit(self.catalogue(), self.layout())?;
        Ok(Value::Fine)
    }
}

pub fn size(line: Line, last: &Last) -> Answer {
    let size = tuppenceowl::record_size(last.catalogue(), last.layout(), line.number(1))?;
    Ok(Value::Size(size))
}

pub fn window(line: Line) -> Answer {
    let window = tuppenceowl::window(line.bytes(1), line.number(2), line.number(3));
    let (start, end) = window.ok_or(Unanswered::Nothing)?;
    Ok(Value::Pair(start, end))
}

pub fn field(line: Line) -> Answer {
    let found = tuppenceowl::field_of(line.bytes(1), line.number(2))?;
    Ok(Value::Field(found.ok_or(Unanswered::Nothing)?))
}
