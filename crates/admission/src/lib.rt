// Admission of a layout, or of two, under a catalogue: refusals 1 to 6, each over the whole input before the next.
#![tactic(auto)]

ghost use Rattle.std.specs.Prelude.{◌≡◌};
ghost use Rattle.lent.specs.Scan.{every};
ghost use Rattle.layout.specs.Layout.{heads};
ghost use Rattle.layout.specs.Shape.{shape_ok};
ghost use Rattle.field.specs.Field.{fields_of};
ghost use Rattle.admission_rules.specs.Admission.{given, admit_tables, admit_all, admit_of, admit_both};
ghost use Rattle.admission_rules.specs.Parts.{test_ok, head_passes, layout_passes};

use admission_rules::Test;
use field::Holder;
use layout::block::Head;
use layout::{block, shape};
use limits::refusal::Refusal;
use table_rules::Rule;

fn table_passes(test: Test, cat: &[u8], most: usize, t: &[u8]) -> bool
    ensures { result ≡ test_ok test cat.now most (fields_of t.now) }
{
    match test {
        Test::Each(rule) => table::table_ok(rule, cat, most, t),
        Test::Tidy => table::tidy_ok(cat, most, t),
    }
}

// The table whose head is h.
fn head_passes(test: Test, holder: Holder, cat: &[u8], l: &[u8], h: Head) -> bool
    ensures { result ≡ head_passes test holder cat.now l.now h }
{
    let most = block::limit_at(holder, l, h);
    table_passes(test, cat, most, block::table_at(holder, l, h))
}

fn tables_ok(test: Test, holder: Holder, cat: &[u8], l: &[u8]) -> bool
    ensures { result ≡ every (head_passes test holder cat.now l.now) (heads holder l.now) }
{
    block::heads_of(holder, l).all(|h| head_passes(test, holder, cat, l, h))
}

fn layout_ok(test: Test, cat: &[u8], l: &[u8]) -> bool
    ensures { result ≡ layout_passes test cat.now l.now }
{
    tables_ok(test, Holder::Record, cat, l) & tables_ok(test, Holder::Struct, cat, l)
}

// Of both layouts, or of the first alone: an Option of the second would stand in clauses as a reference, not as its bytes.
fn layouts_ok(test: Test, cat: &[u8], both: bool, a: &[u8], b: &[u8]) -> bool
    ensures { result ≡ every (layout_passes test cat.now) (given both a.now b.now) }
{
    if both {
        return layout_ok(test, cat, a) & layout_ok(test, cat, b);
    }
    layout_ok(test, cat, a)
}

fn shapes_ok(both: bool, a: &[u8], b: &[u8]) -> bool
    ensures { result ≡ every shape_ok (given both a.now b.now) }
{
    if both {
        return shape::shape_ok(a) & shape::shape_ok(b);
    }
    shape::shape_ok(a)
}

// Rule by rule, each on all before the next.
fn admit_each(cat: &[u8], both: bool, a: &[u8], b: &[u8]) -> Result<(), Refusal>
    ensures { result ≡ admit_tables cat.now (given both a.now b.now) }
{
    if !layouts_ok(Test::Each(Rule::Reserved), cat, both, a, b) {
        return Err(Refusal::ReservedByte);
    }
    if !layouts_ok(Test::Each(Rule::Bounds), cat, both, a, b) {
        return Err(Refusal::OutOfBounds);
    }
    if !layouts_ok(Test::Each(Rule::Apart), cat, both, a, b) {
        return Err(Refusal::SharedByte);
    }
    if !layouts_ok(Test::Each(Rule::Width), cat, both, a, b) {
        return Err(Refusal::WrongWidth);
    }
    Ok(())
}

// One pass settles what is in offset order and keeps all; only else does the first refusal have to be found.
fn admit_tables(cat: &[u8], both: bool, a: &[u8], b: &[u8]) -> Result<(), Refusal>
    ensures { result ≡ admit_tables cat.now (given both a.now b.now) }
{
    if layouts_ok(Test::Tidy, cat, both, a, b) {
        return Ok(());
    }
    admit_each(cat, both, a, b)
}

fn admit_given(cat: &[u8], both: bool, a: &[u8], b: &[u8]) -> Result<(), Refusal>
    ensures { result ≡ admit_all cat.now (given both a.now b.now) }
{
    if !catalogue::catalogue_ok(cat) {
        return Err(Refusal::BadCatalogue);
    }
    if !shapes_ok(both, a, b) {
        return Err(Refusal::BadShape);
    }
    admit_tables(cat, both, a, b)
}

pub fn admit(cat: &[u8], l: &[u8]) -> Result<(), Refusal>
    ensures { result ≡ admit_of cat.now l.now }
{
    admit_given(cat, false, l, l)
}

pub fn admit_both(cat: &[u8], a: &[u8], b: &[u8]) -> Result<(), Refusal>
    ensures { result ≡ admit_both cat.now a.now b.now }
{
    admit_given(cat, true, a, b)
}
