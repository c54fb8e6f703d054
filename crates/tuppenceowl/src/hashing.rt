// The sum, the layout hash and the boot check.
ghost use Rattle.std.specs.Prelude.{◌≡◌};
ghost use Rattle.limits.specs.Limits.{default_budget};
ghost use Rattle.crc64.specs.Avro.{fingerprint};
ghost use Rattle.tuppenceowl.specs.Answers.{summed_of, booted_of};

use field::Holder;
pub use hash_rules::Walked;
use layout::block;
use limits::refusal::Failure;

// CRC-64-AVRO of any bytes.
pub fn sum(bytes: &[u8]) -> u64
    ensures { result ≡ fingerprint bytes.now }
{
    crc64::sum(bytes)
}

// layout_hash of record k of an admitted layout and the visits used, with a budget of visits (refusals 1 to 6, then 12 or 13).
pub fn layout_hash_within(
    cat: &[u8],
    layout: &[u8],
    k: usize,
    budget: usize,
) -> Result<Walked, Failure>
    ensures { result ≡ summed_of cat.now layout.now k budget }
{
    admission::admit(cat, layout)?;
    if k < block::count_of(Holder::Record, layout) {
        let table = block::table_at(Holder::Record, layout, block::record_head(k));
        return Ok(hash::hash_record(cat, layout, budget, table)?);
    }
    Err(Failure::NoRecord)
}

// The same with the default budget.
pub fn layout_hash(cat: &[u8], layout: &[u8], k: usize) -> Result<Walked, Failure>
    ensures { result ≡ summed_of cat.now layout.now k default_budget }
{
    layout_hash_within(cat, layout, k, limits::DEFAULT_BUDGET)
}

// Does record k store the hash of its tables? Through the entry without a budget.
pub fn boot_check(cat: &[u8], layout: &[u8], k: usize) -> Result<bool, Failure>
    ensures { result ≡ booted_of cat.now layout.now k }
{
    let walked = layout_hash(cat, layout, k)?;
    Ok(walked.fp == block::record_hash(layout, block::record_head(k)))
}
