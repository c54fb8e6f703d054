// The fields of a table, one after the other.
ghost use Rattle.std.specs.Prelude.{◌≡◌};
ghost use Rattle.field.specs.Field.{fields_of};

use crate::FieldDef;

#[derive(Drop)]
pub struct Rows<'a> {
    pub rest: &'a [u8],
}

impl<'a> Iterator for Rows<'a> {
    ghost use Rattle.std.specs.Iterator.{YieldsFirst, item_count};

    type Item = FieldDef;

    ghost next_gives = { YieldsFirst (λ rows. fields_of rows.rest.now) };

    ghost remaining = { item_count (λ rows. fields_of rows.rest.now) };

    fn next(&mut self) -> Option<FieldDef> {
        if self.rest.len() < crate::SIZE {
            return None;
        }
        let f = crate::field_in(self.rest, 0);
        self.rest = &self.rest[crate::SIZE..];
        Some(f)
    }
}

// Bytes behind the last whole field are none of them.
pub fn rows_of(t: &[u8]) -> Rows<'_>
    ensures { fields_of result.rest.now ≡ fields_of t.now }
{
    Rows { rest: t }
}
