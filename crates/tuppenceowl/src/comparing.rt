// The verdict and the lookups. Every layout that is read has passed all of admission.
ghost use Rattle.std.specs.Prelude.{◌≡◌};
ghost use Rattle.tuppenceowl.specs.Comparing.{judged_of, judged_rtype, found_by_id, found_by_name};

use compare::answer::Verdict;
use field::{FieldDef, Holder};
use layout::{block, find};
use limits::refusal::{Failure, Refusal};

// verdict of dbn's compare.rs: record k of a stream's layout against the compiled one.
pub fn verdict(cat: &[u8], stream: &[u8], k: usize, compiled: &[u8]) -> Result<Verdict, Failure>
    ensures { result ≡ judged_of cat.now stream.now k compiled.now }
{
    admission::admit_both(cat, stream, compiled)?;
    if k < block::count_of(Holder::Record, stream) {
        return Ok(compare::verdict(cat, stream, block::record_head(k), compiled));
    }
    Err(Failure::NoRecord)
}

// LayoutIndex::verdict of dbn's index.rs: that of the last record of the rtype.
pub fn verdict_of(
    cat: &[u8],
    stream: &[u8],
    rtype: u16,
    compiled: &[u8],
) -> Result<Verdict, Failure>
    ensures { result ≡ judged_rtype cat.now stream.now rtype compiled.now }
{
    admission::admit_both(cat, stream, compiled)?;
    match find::last_of(stream, rtype) {
        Some(h) => Ok(compare::verdict(cat, stream, h, compiled)),
        None => Err(Failure::NoRecord),
    }
}

// LayoutIndex::field_by_id.
pub fn field_by_id(
    cat: &[u8],
    layout: &[u8],
    rtype: u16,
    id: u16,
) -> Result<Option<FieldDef>, Refusal>
    ensures { result ≡ found_by_id cat.now layout.now rtype id }
{
    admission::admit(cat, layout)?;
    Ok(index::field_by_id(cat, layout, rtype, id))
}

// LayoutIndex::field_by_name.
pub fn field_by_name(
    cat: &[u8],
    layout: &[u8],
    rtype: u16,
    name: &[u8],
) -> Result<Option<FieldDef>, Refusal>
    ensures { result ≡ found_by_name cat.now layout.now rtype name.now }
{
    admission::admit(cat, layout)?;
    Ok(index::field_by_name(cat, layout, rtype, name))
}
