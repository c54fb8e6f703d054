// Fields, of a table alone and of a record by id and by name: the 16 bytes that a table has of them go into lent ones.
ghost use Rattle.std.specs.Prelude.{◌≡◌};
ghost use Rattle.tuppenceowl.specs.Answers.{found_of};
ghost use Rattle.tuppenceowl.specs.Comparing.{found_by_id, found_by_name};
ghost use Rattle.tuppenceowl_c.specs.Finding.{found_status, field_or};

use crate::NONE;
use builders::bytes;
use builders::bytes::Row;
use field::FieldDef;
use limits::refusal::Refusal;

fn tell(answer: Result<Option<FieldDef>, Refusal>, field: &mut Row) -> u8
    ensures status { result ≡ found_status answer }
    ensures field { field.new ≡ field_or answer field.old }
{
    match answer {
        Ok(Some(f)) => {
            *field = bytes::row(f);
            0
        }
        Ok(None) => NONE,
        Err(why) => limits::refusal::number(why),
    }
}

#[unsafe(no_mangle)]
pub extern "C" fn owl_field_of(table: &[u8], k: usize, field: &mut Row) -> u8
    ensures status { result ≡ found_status (found_of table.now k) }
    ensures field { field.new ≡ field_or (found_of table.now k) field.old }
{
    tell(tuppenceowl::field_of(table, k), field)
}

#[unsafe(no_mangle)]
pub extern "C" fn owl_field_by_id(
    cat: &[u8],
    layout: &[u8],
    rtype: u16,
    id: u16,
    field: &mut Row,
) -> u8
    ensures status { result ≡ found_status (found_by_id cat.now layout.now rtype id) }
    ensures field { field.new ≡ field_or (found_by_id cat.now layout.now rtype id) field.old }
{
    tell(
        tuppenceowl::comparing::field_by_id(cat, layout, rtype, id),
        field,
    )
}

#[unsafe(no_mangle)]
pub extern "C" fn owl_field_by_name(
    cat: &[u8],
    layout: &[u8],
    rtype: u16,
    name: &[u8],
    field: &mut Row,
) -> u8
    ensures status { result ≡ found_status (found_by_name cat.now layout.now rtype name.now) }
    ensures field { field.new ≡ field_or (found_by_name cat.now layout.now rtype name.now) field.old }
{
    tell(
        tuppenceowl::comparing::field_by_name(cat, layout, rtype, name),
        field,
    )
}
