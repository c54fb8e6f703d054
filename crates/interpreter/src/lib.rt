// UpgradePlan::apply of dbn's upgrade.rs, on a plan in a slot: the default body, then the steps.
#![tactic(auto)]

ghost use Rattle.std.specs.Prelude.{◌≡◌, true, ◌+◌, ◌≤◌, length};
ghost use Rattle.std.proofs.lemmas.List.Edits.{sets};
ghost use Rattle.catalogue.specs.Catalogue.{is_width};
ghost use Rattle.step.specs.declared.Op.TheVariants.{Int};
ghost use Rattle.slot.specs.Slot.{header_in, size_in, plan_in};
ghost use Rattle.interpreter.specs.Run.{carried, reaches, fits, run_step, run, upgraded, covered_to, body_after};

use slot::valid::ValidPlan;
use step::{Op, Step};

// The integer of n bytes at `source`, mapped and stored in m bytes at `target`.
fn carry_int(
    source: usize,
    target: usize,
    n: usize,
    m: usize,
    signed: bool,
    marked: bool,
    src: &[u8],
    dst: &mut [u8],
)
    requires { ((is_width n ≡ true) × (is_width m ≡ true)) × ((source + n ≤ length src.now) × (target + m ≤ length dst.old)) }
    ensures { dst.new ≡ sets dst.old target (carried src.now (Int source target n m signed marked)) }
{
    let v = mapping::width::number_in(src, source, n);
    let w = mapping::map_int(n as u64, m as u64, signed, marked, v);
    mapping::width::store_number(dst, target, m, w)
}

// A step whose window passes the record's end is skipped whole.
fn run_step(step: Step, src: &[u8], dst: &mut [u8])
    requires { fits (length dst.old) step ≡ true }
    ensures { dst.new ≡ run_step src.now step dst.old }
{
    match step.op {
        Op::Copy {
            src_offset,
            dst_offset,
            size,
        } => {
            let source = lent::wide16(src_offset);
            let n = lent::wide16(size);
            if source + n <= src.len() {
                lent::store::copy(src, source, dst, lent::wide16(dst_offset), n);
            }
        }
        Op::Int {
            src_offset,
            dst_offset,
            src_size,
            dst_size,
            signed,
            has_undef_max,
        } => {
            let source = lent::wide16(src_offset);
            let target = lent::wide16(dst_offset);
            let from = lent::wide16(src_size);
            let to = lent::wide16(dst_size);
            if source + from <= src.len() {
                carry_int(source, target, from, to, signed, has_undef_max, src, dst);
            }
        }
    }
}

// Does the record reach the end of what the step reads?
fn reaches(step: Step, src: &[u8]) -> bool
    ensures { result ≡ reaches src.now step }
{
    step.source_end() <= src.len()
}

// Where the first step leaves the body to be laid from: bytes below it would be laid in vain.
fn covered_to(plan: ValidPlan<'_>, src: &[u8]) -> usize
    ensures { result ≡ covered_to src.now (header_in plan.entry.bytes.now) (plan_in plan.entry.bytes.now).steps }
{
    let header = plan.header();
    match plan.steps().next() {
        Some(step) => {
            if (step.target() == header) & reaches(step, src) {
                return step.end();
            }
            header
        }
        None => header,
    }
}

// The default body of a plan, from a place of the record on.
pub fn lay_body(plan: ValidPlan<'_>, from: usize, dst: &mut [u8])
    requires { (header_in plan.bytes.now ≤ from) × (from ≤ size_in plan.bytes.now) × (size_in plan.bytes.now ≤ length dst.old) }
    ensures { dst.new ≡ sets dst.old from (body_after plan.entry.bytes.now from) }
{
    let start = slot::BODY_FROM + (from - plan.header());
    let n = plan.size() - from;
    lent::store::copy(plan.bytes, start, dst, from, n);
}

// The steps of a plan, one after the other.
pub fn run_steps(plan: ValidPlan<'_>, src: &[u8], dst: &mut [u8])
    requires { size_in plan.bytes.now ≤ length dst.old }
    ensures { dst.new ≡ run src.now (plan_in plan.entry.bytes.now).steps dst.old }
{
    for step in plan.steps() {
        run_step(step, src, dst);
    }
}

// The default body, then the steps. Bytes of the header, and those past the record size, stay.
pub fn apply(plan: ValidPlan<'_>, src: &[u8], dst: &mut [u8])
    requires { size_in plan.bytes.now ≤ length dst.old }
    ensures { dst.new ≡ upgraded (plan_in plan.entry.bytes.now) src.now dst.old }
{
    lay_body(plan, covered_to(plan, src), dst);
    run_steps(plan, src, dst)
}
