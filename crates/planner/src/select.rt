// The selection of dbn's Upgrader::new.
ghost use Rattle.std.specs.Prelude.{◌≡◌, Some, None};
ghost use Rattle.lent.specs.Scan.{first};
ghost use Rattle.layout.specs.Layout.{record_at, heads};
ghost use Rattle.layout.specs.Find.{Near};
ghost use Rattle.field.specs.declared.Holder.TheVariants.{Record};
ghost use Rattle.planner.specs.Select.{of_schema, if_named, chosen, as_selected, selected_of};

use field::Holder;
use layout::block::Head;
use layout::{block, find};
use limits::refusal::Failure;

fn of_schema(l: &[u8], schema: u16, h: Head) -> bool
    ensures { result ≡ of_schema l.now schema h }
{
    block::record_schema(l, h) == schema
}

fn first_of_schema(l: &[u8], schema: u16) -> Option<Head>
    ensures { result ≡ first (of_schema l.now schema) Some None (heads Record l.now) }
{
    for h in block::heads_of(Holder::Record, l) {
        if of_schema(l, schema, h) {
            return Some(h);
        }
    }
    None
}

// The first record of the schema, if it has the source's name.
fn of_schema_named(target: &[u8], schema: u16, source: &[u8], from: Head) -> Option<Head>
    ensures { result ≡ if_named target.now (record_at source.now from).name (first (of_schema target.now schema) Some None (heads Record target.now)) }
{
    let h = first_of_schema(target, schema)?;
    if lent::same(
        block::record_name(target, h),
        block::record_name(source, from),
    ) {
        return Some(h);
    }
    None
}

fn choose(target: &[u8], source: &[u8], from: Head, schema: Option<u16>) -> Option<Head>
    ensures { result ≡ chosen target.now (record_at source.now from) schema }
{
    if let Some(wanted) = schema {
        if let Some(h) = of_schema_named(target, wanted, source, from) {
            return Some(h);
        }
    }
    find::first_of(target, block::record_rtype(source, from))
}

fn as_selected(place: Option<Head>) -> Option<usize>
    ensures { result ≡ as_selected place }
{
    let h = place?;
    Some(h.at().saturating_sub(8) / block::RECORD_HEAD)
}

// None where no record of the target is selected. A schema is looked for only where one is wanted.
pub fn select(
    cat: &[u8],
    source: &[u8],
    k: usize,
    target: &[u8],
    schema: Option<u16>,
) -> Result<Option<usize>, Failure>
    ensures { result ≡ selected_of cat.now source.now k target.now schema }
{
    admission::admit_both(cat, source, target)?;
    if k < block::count_of(Holder::Record, source) {
        return Ok(as_selected(choose(target, source, block::record_head(k), schema)));
    }
    Err(Failure::NoRecord)
}
