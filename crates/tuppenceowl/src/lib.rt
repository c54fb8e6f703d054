// The public calls. Any bytes and numbers may be given to each; each answers as its definition in specs/ says.
#![tactic(auto)]

pub mod building;
pub mod comparing;
pub mod hashing;
pub mod planning;
pub mod texting;
pub mod upgrading;

ghost use Rattle.std.specs.Prelude.{◌≡◌};
ghost use Rattle.admission_rules.specs.Admission.{admit_catalogue, admit_of};
ghost use Rattle.tuppenceowl.specs.Answers.{alone_ok, sized_of, windowed_of, found_of};

use field::{FieldDef, Holder};
use layout::block;
use limits::refusal::{Failure, Refusal};

// Is the catalogue valid (refusal 1)?
pub fn check_catalogue(cat: &[u8]) -> Result<(), Refusal>
    ensures { result ≡ admit_catalogue cat.now }
{
    if catalogue::catalogue_ok(cat) {
        return Ok(());
    }
    Err(Refusal::BadCatalogue)
}

// Is the layout admitted under the catalogue (refusals 1 to 6)?
pub fn admit(cat: &[u8], layout: &[u8]) -> Result<(), Refusal>
    ensures { result ≡ admit_of cat.now layout.now }
{
    admission::admit(cat, layout)
}

// record_size of record k of an admitted layout.
pub fn record_size(cat: &[u8], layout: &[u8], k: usize) -> Result<usize, Failure>
    ensures { result ≡ sized_of cat.now layout.now k }
{
    admission::admit(cat, layout)?;
    if k < block::count_of(Holder::Record, layout) {
        return Ok(record_size::record_size(layout, block::record_head(k)));
    }
    Err(Failure::NoRecord)
}

// window of dbn's layout.rs: where it starts and ends, if it lies inside.
pub fn window(bytes: &[u8], offset: usize, size: usize) -> Option<(usize, usize)>
    ensures { result ≡ windowed_of bytes.now offset size }
{
    if lent::has_window(bytes, offset, size) {
        return Some((offset, offset + size));
    }
    None
}

fn alone_ok(table: &[u8]) -> bool
    ensures { result ≡ alone_ok table.now }
{
    let n = table.len();
    (n % field::SIZE == 0) & (n <= field::SIZE * limits::MAX_FIELDS)
}

// Field k of a table that is lent alone, if it has so many (refusals 2 and 3).
pub fn field_of(table: &[u8], k: usize) -> Result<Option<FieldDef>, Refusal>
    ensures { result ≡ found_of table.now k }
{
    if !alone_ok(table) {
        return Err(Refusal::BadShape);
    }
    if !table::reserved_ok(table) {
        return Err(Refusal::ReservedByte);
    }
    if k < table.len() / field::SIZE {
        return Ok(Some(field::field_in(table, field::SIZE * k)));
    }
    Ok(None)
}
