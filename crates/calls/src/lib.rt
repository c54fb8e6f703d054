// The calls of dbn's FieldCursor: what each takes, how it aligns, and the field that it places.
#![tactic(auto)]

ghost use Rattle.std.specs.Prelude.{◌≡◌, cond, ◌+◌, ◌*◌, ◌≤◌, ◌<◌};
ghost use Rattle.limits.specs.Limits.{max_bytes};
ghost use Rattle.catalogue.specs.Catalogue.{width_of};
ghost use Rattle.field.specs.Field.{fields_of};
ghost use Rattle.layout.specs.Layout.{struct_at};
ghost use Rattle.cursor_rules.specs.Cursor.{move_to};
ghost use Rattle.builders.specs.Builder.{building_of, outcome_of, state_or, SameLent};
ghost use Rattle.calls_rules.specs.Calls.{takes_scalar, scale_of, scalar_of, string_of, like_of, widest, times_of, times_flag, nested_size, nested_of, noted, noted_all, base_end, finish_base_of, ended_of};

use builders::placing;
use builders::placing::Builder;
use cursor_rules::{FieldCursor, Times};
use field::{FieldDef, Holder};
use layout::block;
use layout::block::Head;
use limits::refusal::Refusal;

// What the document gives a decimal.
const DECIMAL_SCALE: i8 = -9;

// What a base and a record are aligned to.
const EIGHT: usize = 8;

fn takes_scalar(cat: &[u8], id: u8) -> bool
    ensures { result ≡ takes_scalar cat.now id }
{
    (catalogue::class_of(cat, id) <= catalogue::DECIMAL) & (catalogue::width_of(cat, id) != 0)
}

fn scale_of(cat: &[u8], id: u8) -> i8
    ensures { result ≡ scale_of cat.now id }
{
    if catalogue::class_of(cat, id) == catalogue::DECIMAL {
        return DECIMAL_SCALE;
    }
    0
}

fn width(cat: &[u8], id: u8) -> usize
    ensures { (result ≡ width_of cat.now id) × (result < 16) }
{
    catalogue::width_of(cat, id) as usize
}

pub fn scalar(
    b: &mut Builder<'_>,
    cat: &[u8],
    field_id: u16,
    type_id: u8,
    size: u16,
    flags: u8,
    def_index: u16,
    name: &[u8],
) -> Result<FieldCursor, Refusal>
    ensures made { outcome_of result b.new ≡ scalar_of cat.now field_id type_id size flags def_index name.now (building_of b.old) }
    ensures same { SameLent b.old b.new }
    ensures stands { b.new.state ≡ state_or b.old.state result }
{
    let f = FieldDef {
        field_id,
        offset: 0,
        size,
        type_id,
        flags,
        def_index,
        scale: scale_of(cat, type_id),
        reserved: 0,
    };
    let takes = takes_scalar(cat, type_id);
    b.place(cat, takes, width(cat, type_id), f, name)
}

pub fn string(
    b: &mut Builder<'_>,
    cat: &[u8],
    field_id: u16,
    type_id: u8,
    size: u16,
    flags: u8,
    name: &[u8],
) -> Result<FieldCursor, Refusal>
    ensures made { outcome_of result b.new ≡ string_of cat.now field_id type_id size flags name.now (building_of b.old) }
    ensures same { SameLent b.old b.new }
    ensures stands { b.new.state ≡ state_or b.old.state result }
{
    let f = FieldDef {
        field_id,
        offset: 0,
        size,
        type_id,
        flags,
        def_index: 0,
        scale: 0,
        reserved: 0,
    };
    let takes = catalogue::class_of(cat, type_id) == catalogue::STRING;
    b.place(cat, takes, 1, f, name)
}

// The numbers of another field, all but its place and its def_index.
pub fn like(
    b: &mut Builder<'_>,
    cat: &[u8],
    def: FieldDef,
    def_index: u16,
    name: &[u8],
) -> Result<FieldCursor, Refusal>
    ensures made { outcome_of result b.new ≡ like_of cat.now def def_index name.now (building_of b.old) }
    ensures same { SameLent b.old b.new }
    ensures stands { b.new.state ≡ state_or b.old.state result }
{
    let id = def.type_id;
    let f = FieldDef {
        offset: 0,
        def_index,
        reserved: 0,
        ..def
    };
    let takes = catalogue::class_of(cat, id) != catalogue::STRUCT;
    b.place(cat, takes, width(cat, id), f, name)
}

// ---- a struct of a layout

fn widest(cat: &[u8], t: &[u8]) -> usize
    ensures { (result ≡ widest cat.now (fields_of t.now)) × (result < 16) }
{
    let mut most: usize = 0;
    for f in field::rows::rows_of(t) {
        most = most.max(width(cat, f.type_id));
    }
    most
}

fn times_of(times: Times) -> usize
    ensures { (result ≡ times_of times) × (result < 65536) }
{
    match times {
        Times::One => 1,
        Times::Array(n) => n as usize,
    }
}

fn times_flag(cat: &[u8], times: Times) -> u8
    ensures { result ≡ times_flag cat.now times }
{
    match times {
        Times::One => 0,
        Times::Array(_) => catalogue::array_flag(cat),
    }
}

// What its head says, in four bytes.
fn struct_bytes(l: &[u8], h: Head) -> usize
    ensures { (result ≡ (struct_at l.now h).size) × (result < 4294967296) }
{
    lent::u32_at(l, h.at())
}

// All of them together: four bytes times two, so that no product wraps.
fn nested_size(l: &[u8], k: u16, times: Times) -> u16
    ensures { result ≡ nested_size l.now k times }
{
    let size = struct_bytes(l, block::struct_head(l, k));
    (size * times_of(times)).min(limits::MAX_BYTES + 1) as u16
}

// Struct k of a layout, once or as an array.
pub fn nested(
    b: &mut Builder<'_>,
    cat: &[u8],
    l: &[u8],
    field_id: u16,
    k: u16,
    times: Times,
    name: &[u8],
) -> Result<FieldCursor, Refusal>
    ensures made { outcome_of result b.new ≡ nested_of cat.now l.now field_id k times name.now (building_of b.old) }
    ensures same { SameLent b.old b.new }
    ensures stands { b.new.state ≡ state_or b.old.state result }
{
    let f = FieldDef {
        field_id,
        offset: 0,
        size: nested_size(l, k, times),
        type_id: catalogue::id_of(cat, catalogue::STRUCT),
        flags: times_flag(cat, times),
        def_index: k,
        scale: 0,
        reserved: 0,
    };
    let takes = (k as usize) < block::count_of(Holder::Struct, l);
    let align = widest(
        cat,
        block::table_at(Holder::Struct, l, block::struct_head(l, k)),
    );
    b.place(cat, takes, align, f, name)
}

// ---- the base

fn base_of(c: FieldCursor) -> usize
    ensures { result ≡ cond c.based c.base c.cursor }
{
    if c.based { c.base } else { c.cursor }
}

fn noted(c: FieldCursor) -> FieldCursor
    ensures { result ≡ noted c }
{
    FieldCursor {
        base: base_of(c),
        based: true,
        ..c
    }
}

// As the Rust: an end that is noted already is only returned.
fn base_end(c: FieldCursor) -> usize
    requires { c.cursor ≤ max_bytes }
    ensures { result ≡ base_end c }
{
    if c.based {
        c.cursor
    } else {
        placing::align_up(c.cursor, EIGHT)
    }
}

// Pads up to `to`, and notes the base if need be.
fn end_at(b: &mut Builder<'_>, cat: &[u8], to: usize) -> Result<FieldCursor, Refusal>
    ensures made { outcome_of result b.new ≡ noted_all (move_to cat.now to (building_of b.old)) }
    ensures same { SameLent b.old b.new }
    ensures stands { b.new.state ≡ state_or b.old.state result }
{
    let moved = b.move_to(cat, to)?;
    b.state = noted(moved);
    Ok(b.state)
}

// Pads to 8 and notes the base; a second call only returns it.
pub fn finish_base(b: &mut Builder<'_>, cat: &[u8]) -> Result<FieldCursor, Refusal>
    ensures made { outcome_of result b.new ≡ finish_base_of cat.now (building_of b.old) }
    ensures same { SameLent b.old b.new }
    ensures stands { b.new.state ≡ state_or b.old.state result }
{
    if limits::MAX_BYTES < b.state.cursor {
        return Err(Refusal::CursorFull);
    }
    end_at(b, cat, base_end(b.state))
}

// Pads to 8, and notes the base if need be.
pub fn finish_all(b: &mut Builder<'_>, cat: &[u8]) -> Result<FieldCursor, Refusal>
    ensures made { outcome_of result b.new ≡ ended_of cat.now (building_of b.old) }
    ensures same { SameLent b.old b.new }
    ensures stands { b.new.state ≡ state_or b.old.state result }
{
    if limits::MAX_BYTES < b.state.cursor {
        return Err(Refusal::CursorFull);
    }
    end_at(b, cat, placing::align_up(b.state.cursor, EIGHT))
}
