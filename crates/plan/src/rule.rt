// op_for of dbn's upgrade.rs: what a source field brings to a target field of its id.
ghost use Rattle.std.specs.Prelude.{◌≡◌, ◌+◌, ◌≤◌, length};
ghost use Rattle.field.specs.Field.{fields_of, is_signed};
ghost use Rattle.step.specs.Step.{copy, int};
ghost use Rattle.plan_rules.specs.Rule.{step_for, is_marked, want_at, step_of};

use field::{FieldDef, pair};
use places::Index;
use plan_rules::Want;
use step::{Op, Step};

fn copy(have: FieldDef, want: FieldDef, size: u16) -> Step
    ensures { result ≡ copy have.offset want.offset size }
{
    Step {
        op: Op::Copy {
            src_offset: have.offset,
            dst_offset: want.offset,
            size,
        },
    }
}

fn int(cat: &[u8], have: FieldDef, want: FieldDef, marked: bool) -> Step
    ensures { result ≡ int have.offset want.offset have.size want.size (is_signed cat.now have) marked }
{
    Step {
        op: Op::Int {
            src_offset: have.offset,
            dst_offset: want.offset,
            src_size: have.size,
            dst_size: want.size,
            signed: field::is_signed(cat, have),
            has_undef_max: marked,
        },
    }
}

// None: the target field has its default.
pub fn op_for(cat: &[u8], have: FieldDef, want: FieldDef, marked: bool) -> Option<Step>
    ensures { result ≡ step_for cat.now have want marked }
{
    if pair::same_kind(cat, have, want) {
        return Some(copy(have, want, want.size));
    }
    if pair::apart(cat, have, want) {
        return None;
    }
    if field::is_string(cat, have) & field::is_string(cat, want) {
        if have.size <= want.size {
            return Some(copy(have, want, have.size));
        }
        return None;
    }
    if pair::same_sign(cat, have, want) & ((have.size < want.size) | marked) {
        return Some(int(cat, have, want, marked));
    }
    None
}

// Marks are a byte a field; there is none past the end.
pub fn is_marked(cat: &[u8], marks: &[u8], k: usize, f: FieldDef) -> bool
    ensures { result ≡ is_marked cat.now marks.now k f }
{
    lent::byte_at(marks, k) != 0 && field::is_plain_integer(cat, f)
}

// The field at a place of the target's table.
pub fn want_at(cat: &[u8], marks: &[u8], table: &[u8], at: usize) -> Want
    requires { at + 16 ≤ length table.now }
    ensures { result ≡ want_at cat.now marks.now table.now at }
{
    let def = field::field_in(table, at);
    Want {
        def,
        marked: is_marked(cat, marks, at / field::SIZE, def),
    }
}

pub fn step_of(cat: &[u8], source: &Index, want: Want) -> Option<Step>
    ensures { result ≡ step_of cat.now (fields_of source.now.table.now) want }
{
    if !field::counts(cat, want.def) {
        return None;
    }
    let have = source.first(want.def.field_id)?;
    op_for(cat, have, want.def, want.marked)
}
