// The lines of a plan's text, stored from `at` on; the answer is the place behind them. Not by `write!`, which answers an error
// that cannot come here, and whose `Err` would say nothing of `out`.
ghost use Rattle.std.specs.Prelude.{◌≡◌, cond, ◌+◌, ◌*◌, ◌≤◌, length};
ghost use Rattle.limits.specs.Limits.{max_bytes};
ghost use Rattle.lent.specs.Bytes.{window};
ghost use Rattle.slot.specs.Slot.{slot_size, body_from, steps_from};
ghost use Rattle.step.specs.Packed.{steps_at};
ghost use Rattle.decimal.specs.Put.{Put};
ghost use Rattle.plan_text.specs.Held.{tabbed, head_in};
ghost use Rattle.plan_text.specs.Text.{body_line, signs_of, step_line, step_lines};

use decimal::{put_all, put_byte, put_cell};
use step::{Op, Step};

const TAB: u8 = 9;

const NEWLINE: u8 = 10;

// The first n numbers of a slot, each with a tab behind it.
fn put_tabbed(slot: &[u8], n: usize, out: &mut [u8], at: usize) -> usize
    requires { (2 * n ≤ length slot.now) × (at + length (tabbed slot.now 0 n) ≤ length out.old) }
    ensures { Put out.old at (tabbed slot.now 0 n) out.new result }
{
    let mut to = at;
    for k in 0..n {
        to = put_cell(lent::u16_in(slot, 2 * k), TAB, out, to);
    }
    to
}

pub fn put_head(slot: &[u8], out: &mut [u8], at: usize) -> usize
    requires { (length slot.now ≡ slot_size) × (at + length (head_in slot.now) ≤ length out.old) }
    ensures { Put out.old at (head_in slot.now) out.new result }
{
    let start = put_all(b"plan\t1\t", out, at);
    let behind = put_tabbed(slot, 6, out, start);
    put_cell(lent::u16_in(slot, 12), NEWLINE, out, behind)
}

pub fn put_body(slot: &[u8], n: usize, out: &mut [u8], at: usize) -> usize
    requires { (length slot.now ≡ slot_size) × (n ≤ max_bytes) × (at + length (body_line (window slot.now body_from n)) ≤ length out.old) }
    ensures { Put out.old at (body_line (window slot.now body_from n)) out.new result }
{
    let start = put_all(b"body\t", out, at);
    let behind = decimal::hexes::put_hex(slot, slot::BODY_FROM, n, out, start);
    put_byte(NEWLINE, out, behind)
}

fn pick(b: bool, x: u8, y: u8) -> u8
    ensures { result ≡ cond b x y }
{
    if b { x } else { y }
}

fn put_copy(source: u16, target: u16, size: u16, out: &mut [u8], at: usize) -> usize
    requires { at + length (step_line (Op.Copy source target size)) ≤ length out.old }
    ensures { Put out.old at (step_line (Op.Copy source target size)) out.new result }
{
    let start = put_all(b"copy\t", out, at);
    let a = put_cell(source, TAB, out, start);
    let b = put_cell(target, TAB, out, a);
    put_cell(size, NEWLINE, out, b)
}

// The sign and the mark, which end the line of an integer.
fn put_signs(signed: bool, marked: bool, out: &mut [u8], at: usize) -> usize
    requires { at + 4 ≤ length out.old }
    ensures { Put out.old at (signs_of signed marked) out.new result }
{
    let end = [
        pick(signed, b's', b'u'),
        TAB,
        pick(marked, b'1', b'0'),
        NEWLINE,
    ];
    put_all(&end, out, at)
}

fn put_int(
    source: u16,
    target: u16,
    from: u16,
    to: u16,
    signed: bool,
    marked: bool,
    out: &mut [u8],
    at: usize,
) -> usize
    requires { at + length (step_line (Op.Int source target from to signed marked)) ≤ length out.old }
    ensures { Put out.old at (step_line (Op.Int source target from to signed marked)) out.new result }
{
    let start = put_all(b"int\t", out, at);
    let a = put_cell(source, TAB, out, start);
    let b = put_cell(target, TAB, out, a);
    let c = put_cell(from, TAB, out, b);
    let d = put_cell(to, TAB, out, c);
    put_signs(signed, marked, out, d)
}

pub fn put_step(step: Step, out: &mut [u8], at: usize) -> usize
    requires { at + length (step_line step.op) ≤ length out.old }
    ensures { Put out.old at (step_line step.op) out.new result }
{
    match step.op {
        Op::Copy {
            src_offset,
            dst_offset,
            size,
        } => put_copy(src_offset, dst_offset, size, out, at),
        Op::Int {
            src_offset,
            dst_offset,
            src_size,
            dst_size,
            signed,
            has_undef_max,
        } => put_int(
            src_offset,
            dst_offset,
            src_size,
            dst_size,
            signed,
            has_undef_max,
            out,
            at,
        ),
    }
}

// The lines of the first `count` steps.
pub fn put_steps(slot: &[u8], count: usize, out: &mut [u8], at: usize) -> usize
    requires { (steps_from + 16 * count ≤ length slot.now) × (at + length (step_lines (steps_at slot.now steps_from count)) ≤ length out.old) }
    ensures { Put out.old at (step_lines (steps_at slot.now steps_from count)) out.new result }
{
    let mut to = at;
    for step in slot::steps_in(slot, count) {
        to = put_step(step, out, to);
    }
    to
}
