// What a field feeds a sum, of dbn's hash.rs: its own bytes, without def_index.
#![tactic(auto)]

ghost use Rattle.std.specs.Prelude.{◌≡◌, length};
ghost use Rattle.crc64.specs.Sum.{bytes_step};
ghost use Rattle.feed.specs.Feed.{field_bytes, row_step};

use crc64::{Crc64, digitwise};
use field::FieldDef;

// A field's own bytes, as two numbers: its id and offset; its size, type, flags and scale.
pub fn field_sum(start: u64, f: FieldDef) -> u64
    ensures { result ≡ bytes_step start (field_bytes f) }
{
    let place = (f.field_id as u64) + 65536 * (f.offset as u64);
    let scale = field::scale_byte(f.scale) as u64;
    let kind = (f.type_id as u64) + 256 * ((f.flags as u64) + 256 * scale);
    let sum = digitwise::step_number(start, place, 4);
    digitwise::step_number(sum, (f.size as u64) + 65536 * kind, 5)
}

// A sum that is lent takes in the field of a row of 16 that is lent alone.
pub fn add_field(crc: &mut Crc64, row: &[u8])
    requires { length row.now ≡ 16 }
    ensures { crc.new.fp ≡ row_step crc.old.fp row.now }
{
    crc.fp = field_sum(crc.fp, field::field_in(row, 0));
}
