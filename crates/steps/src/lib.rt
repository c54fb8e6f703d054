// The steps of an upgrade plan: one for each target field that is carried, in target order, neighbours joined.
#![tactic(auto)]

ghost use Rattle.std.specs.Prelude.{◌≡◌, map, ℕ, ◌+◌, ◌*◌, ◌<◌, ◌≤◌, length, slice_index, take};
ghost use Rattle.limits.specs.Limits.{max_fields, max_steps};
ghost use Rattle.field.specs.Field.{fields_of};
ghost use Rattle.coalesce.specs.Joins.{join_all};
ghost use Rattle.plan_rules.specs.Rule.{want_at, wants};
ghost use Rattle.steps.specs.Steps.{steps_of, planned_steps};

use coalesce::Bases;
use places::Index;
use plan::rule;
use step::{Op, Step, Steps};

// An integer step: each of its bytes is written, so an array of them is laid out at once.
const NO_STEP: Step = Step {
    op: Op::Int {
        src_offset: 0,
        dst_offset: 0,
        src_size: 0,
        dst_size: 0,
        signed: false,
        has_undef_max: false,
    },
};

// Of the places in an order, each step joined onto the last where it joins.
fn in_order(
    cat: &[u8],
    source: &Index,
    dst: &[u8],
    marks: &[u8],
    order: &[u16],
    bases: Bases,
) -> Steps
    requires few { length order.now ≤ max_steps }
    requires inside { (k : ℕ) → k < length order.now → slice_index order.now k + 16 ≤ length dst.now }
    requires base { bases.source < 65536 }
    ensures steps { take result.count result.steps ≡ join_all bases.source bases.target (steps_of cat.now (fields_of source.now.table.now) (map (want_at cat.now marks.now dst.now) order.now)) }
    ensures count { result.count ≤ length order.now }
{
    let mut steps = [NO_STEP; limits::MAX_STEPS];
    let mut count = 0;
    for place in order {
        let want = rule::want_at(cat, marks, dst, usize::from(*place));
        let Some(step) = rule::step_of(cat, source, want) else {
            continue;
        };
        if count != 0 {
            if let Some(both) = coalesce::join(steps[count - 1], step, bases) {
                steps[count - 1] = both;
                continue;
            }
        }
        steps[count] = step;
        count += 1;
    }
    Steps { count, steps }
}

// The steps from a source's table to a target's, under its marks.
pub fn planned(cat: &[u8], src: &[u8], dst: &[u8], marks: &[u8], bases: Bases) -> Steps
    requires { (length dst.now ≤ 16 * max_fields) × (bases.source < 65536) × (length src.now ≤ 16 * max_fields) }
    ensures { (take result.count result.steps ≡ planned_steps cat.now (fields_of src.now) (wants cat.now marks.now dst.now) bases.source bases.target) × (result.count ≤ max_steps) }
{
    let n = dst.len() / field::SIZE;
    let mut order = [0u16; limits::MAX_FIELDS];
    field::order::by_offset(dst, n, &mut order);
    in_order(cat, &Index::of(src), dst, marks, &order[..n], bases)
}
