// The parts of a plan, taken out of any text into a slot.
#![tactic(auto)]

ghost use Rattle.std.specs.Prelude.{◌≡◌, ◌+◌, ◌*◌, ◌≤◌, length, drop};
ghost use Rattle.std.proofs.lemmas.List.Edits.{sets};
ghost use Rattle.decimal.specs.Decimal.{pasts};
ghost use Rattle.decimal.specs.Hex.{unhex};
ghost use Rattle.limits.specs.Limits.{max_bytes, max_steps};
ghost use Rattle.slot.specs.Slot.{slot_size, steps_from, body_from, packed_steps};
ghost use Rattle.plan_take.specs.Lenient.{copy_as, int_as, step_as, step_past, steps_as, numbers_as, numbers_from};

use decimal::{first, skip, take_number};
use step::{Op, Step};

// n numbers, two bytes each.
fn take_numbers(text: &[u8], at: usize, n: usize, out: &mut [u8]) -> usize
    requires { (at ≤ length text.now) × (2 * n ≤ length out.old) }
    ensures { (out.new ≡ sets out.old 0 (numbers_as n (drop at text.now))) × (drop result text.now ≡ pasts n (drop at text.now)) × (result ≤ length text.now) }
{
    let mut next = at;
    for k in 0..n {
        let number = take_number(text, next);
        out[2 * k] = lent::store::low(number.value);
        out[2 * k + 1] = lent::store::high(number.value);
        next = number.next;
    }
    next
}

#[derive(Clone, Copy, Debug, PartialEq, Eq)]
pub struct Taken {
    pub step: Step,
    pub next: usize,
}

fn take_copy(text: &[u8], at: usize) -> Taken
    requires { at ≤ length text.now }
    ensures { (result.step ≡ record { op = copy_as (drop at text.now) }) × (drop result.next text.now ≡ pasts 3 (drop at text.now)) × (result.next ≤ length text.now) }
{
    let a = take_number(text, at);
    let b = take_number(text, a.next);
    let c = take_number(text, b.next);
    Taken {
        step: Step {
            op: Op::Copy {
                src_offset: a.value,
                dst_offset: b.value,
                size: c.value,
            },
        },
        next: c.next,
    }
}

fn take_int(text: &[u8], at: usize) -> Taken
    requires { at ≤ length text.now }
    ensures { (result.step ≡ record { op = int_as (drop at text.now) }) × (drop result.next text.now ≡ drop 4 (pasts 4 (drop at text.now))) × (result.next ≤ length text.now) }
{
    let a = take_number(text, at);
    let b = take_number(text, a.next);
    let c = take_number(text, b.next);
    let d = take_number(text, c.next);
    let mark = skip(text, d.next, 2);
    Taken {
        step: Step {
            op: Op::Int {
                src_offset: a.value,
                dst_offset: b.value,
                src_size: c.value,
                dst_size: d.value,
                signed: first(text, d.next) == b's',
                has_undef_max: first(text, mark) == b'1',
            },
        },
        next: skip(text, d.next, 4),
    }
}

fn take_step(text: &[u8], at: usize) -> Taken
    requires { at ≤ length text.now }
    ensures { (result.step ≡ step_as (drop at text.now)) × (drop result.next text.now ≡ step_past (drop at text.now)) × (result.next ≤ length text.now) }
{
    if first(text, at) == b'c' {
        return take_copy(text, skip(text, at, 5));
    }
    take_int(text, skip(text, at, 4))
}

fn take_steps(text: &[u8], at: usize, count: usize, out: &mut [u8])
    requires { (at ≤ length text.now) × (steps_from + 16 * count ≤ length out.old) }
    ensures { out.new ≡ sets out.old steps_from (packed_steps (steps_as count (drop at text.now))) }
{
    let mut next = at;
    for k in 0..count {
        let taken = take_step(text, next);
        let bytes = taken.step.packed();
        let to = slot::STEPS_FROM + step::packed::SIZE * k;
        lent::store::copy(&bytes, 0, out, to, step::packed::SIZE);
        next = taken.next;
    }
}

// The numbers, behind `plan`, a tab, `1`, a tab.
pub fn take_head(text: &[u8], out: &mut [u8]) -> usize
    requires { 16 ≤ length out.old }
    ensures { (out.new ≡ sets out.old 0 (numbers_as 7 (numbers_from text.now))) × (drop result text.now ≡ pasts 7 (numbers_from text.now)) × (result ≤ length text.now) }
{
    let start = skip(text, 0, 7);
    take_numbers(text, start, 7, out)
}

// The body of n bytes, behind `body` and a tab, and the steps behind it and a newline.
pub fn take_rest(text: &[u8], at: usize, n: usize, count: usize, out: &mut [u8])
    requires { (at ≤ length text.now) × (n ≤ max_bytes) × (count ≤ max_steps) × (length out.old ≡ slot_size) }
    ensures { out.new ≡ sets (sets out.old body_from (unhex n (drop 5 (drop at text.now)))) steps_from (packed_steps (steps_as count (drop (2 * n + 1) (drop 5 (drop at text.now))))) }
{
    let body = skip(text, at, 5);
    let hex = lent::window(text, body, 2 * n);
    decimal::hexes::take_hex(hex, n, out, slot::BODY_FROM);
    let steps = skip(text, body, 2 * n + 1);
    take_steps(text, steps, count, out);
}
