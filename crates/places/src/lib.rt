// Where a source's first field of an id stands: an index by the low byte of the id, which tells most ids of a table apart.
#![tactic(auto)]

ghost use Rattle.std.specs.Prelude.{◌≡◌, ◌*◌, ◌≤◌, length, Some, None};
ghost use Rattle.limits.specs.Limits.{max_fields};
ghost use Rattle.lent.specs.Scan.{first};
ghost use Rattle.field.specs.Field.{fields_of};
ghost use Rattle.places.specs.Places.{has_id, place_of, IndexOf};

use field::FieldDef;
use field::rows::rows_of;

// A table, and for each low byte the place of the first field whose id has it.
#[derive(Drop)]
pub struct Index<'a> {
    pub table: &'a [u8],
    pub firsts: [Option<u8>; 256],
    pub ghost holds: { IndexOf (fields_of table.now) firsts },
}

impl<'a> Index<'a> {
    // From the last field to the first, so that the first of a low byte stays. A place fits a byte.
    pub fn of(table: &'a [u8]) -> Index<'a>
        requires { length table.now ≤ 16 * max_fields }
        ensures { result.table.now ≡ table.now }
    {
        let mut firsts = [None; 256];
        for k in (0..table.len() / field::SIZE).rev() {
            let low = usize::from(lent::u16_in(table, field::SIZE * k) % 256);
            firsts[low] = Some(k as u8);
        }
        Index { table, firsts }
    }

    // The place of the first field of an id. Two ids of one low byte are rare: only then is the table searched.
    pub fn find(&self, id: u16) -> Option<usize>
        ensures { result ≡ place_of id (fields_of self.now.table.now) }
    {
        let table = self.table;
        let place = usize::from(self.firsts[usize::from(id % 256)]?);
        if lent::u16_in(table, field::SIZE * place) == id {
            return Some(place);
        }
        rows_of(table).position(|f| f.field_id == id)
    }

    // The first field of an id.
    pub fn first(&self, id: u16) -> Option<FieldDef>
        ensures { result ≡ first (has_id id) Some None (fields_of self.now.table.now) }
    {
        let place = self.find(id)?;
        Some(field::field_in(self.table, field::SIZE * place))
    }
}
