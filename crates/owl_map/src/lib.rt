// A plan drawn for a terminal of 80 columns: a row for each run of target bytes, and a strip with a letter for each byte. The slot holds a
// plan that keeps every rule, so its steps stand in target order and apart.
#![tactic(auto)]

pub mod numbers;
pub mod strip;

use caseline::put::Hex;
use numbers::{Plan, Slot};
use std::io;
use step::{Op, Step};
use strip::{Cells, Run};

// Most bytes of a default that a row shows.
const SHOWN: usize = 16;

// ---- what the plan is

pub fn summary(stdout: &impl Print, slot: &Slot) -> io::Result<()> {
    let plan = Plan(slot);
    let steps = plan.steps();
    let source_rtype = plan.number(numbers::SOURCE_RTYPE);
    let source_base = plan.number(numbers::SOURCE_BASE);
    let rtype = plan.number(numbers::TARGET_RTYPE);
    let base = plan.number(numbers::TARGET_BASE);
    let header = plan.header();
    let size = plan.size();
    println!(stdout; "plan of {steps} steps")?;
    println!(stdout; "  source  rtype {source_rtype}, base {source_base} bytes")?;
    println!(stdout;
        "  target  rtype {rtype}, base {base} bytes, header {header}, record {size} bytes"
    )
}

// ---- a row for each run of target bytes

// What no step reaches.
fn default_row(stdout: &impl Print, plan: Plan<'_>, run: Run) -> io::Result<()> {
    if run.to <= run.from {
        return Ok(());
    }
    let length = run.to - run.from;
    let shown = Hex(plan.body(run.from, length.min(SHOWN)));
    let more = if SHOWN < length { ".." } else { "" };
    println!(stdout; "{run}  .  default {shown}{more}")
}

// The step's row, before it that of the bytes between, and its letters; the answer is where the step ends.
fn step_rows(
    stdout: &impl Print,
    plan: Plan<'_>,
    step: Step,
    before: usize,
    cells: &mut Cells,
) -> io::Result<usize> {
    let target = Run {
        from: step.target(),
        to: step.end(),
    };
    let between = Run {
        from: before,
        to: target.from,
    };
    default_row(stdout, plan, between)?;
    let to = step.source_end();
    match step.op {
        Op::Copy {
            src_offset,
            size,
            ..
        } => {
            let from = usize::from(src_offset);
            let source = Run { from, to };
            cells.fill(target, b'C', b'c');
            println!(stdout; "{target}  c  source {source}  copy of {size}")?;
        }
        Op::Int {
            src_offset,
            src_size,
            dst_size,
            signed,
            has_undef_max,
            ..
        } => {
            let from = usize::from(src_offset);
            let source = Run { from, to };
            let sign = if signed { 'i' } else { 'u' };
            let bits = 8 * usize::from(src_size);
            let wide = 8 * usize::from(dst_size);
            let mark = if has_undef_max { ", marked" } else { "" };
            cells.fill(target, b'I', b'i');
            println!(stdout; "{target}  i  source {source}  {sign}{bits} to {sign}{wide}{mark}")?;
        }
    }
    Ok(target.to)
}

fn rows(stdout: &impl Print, plan: Plan<'_>, cells: &mut Cells) -> io::Result<()> {
    let slot = plan.0;
    let mut end = plan.header();
    for step in slot::steps_in(slot, plan.steps()) {
        end = step_rows(stdout, plan, step, end, cells)?;
    }
    let behind = Run {
        from: end,
        to: plan.size(),
    };
    default_row(stdout, plan, behind)
}

pub fn draw(stdout: &impl Print, slot: &Slot) -> io::Result<()> {
    let plan = Plan(slot);
    // Nothing is drawn yet: each byte has its default.
    let mut cells = Cells([b'.'; limits::MAX_BYTES]);
    let header = Run {
        from: 0,
        to: plan.header(),
    };
    summary(stdout, slot)?;
    println!(stdout; "\n  target bytes   what they are")?;
    if header.to != 0 {
        println!(stdout; "{header}  H  header, left as the host has it")?;
        cells.fill(header, b'H', b'H');
    }
    rows(stdout, plan, &mut cells)?;
    cells.say(stdout, plan.size())?;
    println!(stdout; "\n\n  H header   C copied   I integer   . default; a capital begins a step")
}
