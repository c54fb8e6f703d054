// Is a text the one that would be written for the plan in a slot? The same lines, each compared as soon as it is made.
#![tactic(auto)]

ghost use Rattle.std.specs.Prelude.{◌≡◌, ◌+◌, ◌*◌, ◌≤◌, length, take, drop, eqb};
ghost use Rattle.limits.specs.Limits.{max_bytes};
ghost use Rattle.lent.specs.Bytes.{window};
ghost use Rattle.lent.specs.Scan.{alike};
ghost use Rattle.slot.specs.Slot.{slot_size, body_from, steps_from};
ghost use Rattle.step.specs.Packed.{steps_at};
ghost use Rattle.plan_text.specs.Held.{Held, head_in};
ghost use Rattle.plan_text.specs.Text.{step_line, step_lines};
ghost use Rattle.plan_text.specs.Writing.{text_in};
ghost use Rattle.plan_match.specs.Stands.{stood, body_stands};

use plan_text::{lengths, lines};
use step::Step;

// Room for the longest line but the body's.
const LINE: usize = 64;

const NEWLINE: u8 = 10;

// Do the first n characters of a line stand in the text from `at` on?
fn stands(line: &[u8], n: usize, text: &[u8], at: usize) -> bool
    requires { n ≤ length line.now }
    ensures { result ≡ alike eqb (take n line.now) (window text.now at n) }
{
    lent::same(&line[..n], lent::window(text, at, n))
}

// How long the head line is, where it stands at the start.
fn head_stands(slot: &[u8], text: &[u8]) -> Option<usize>
    requires { length slot.now ≡ slot_size }
    ensures { result ≡ stood (head_in slot.now) text.now 0 }
{
    let mut line = [0u8; LINE];
    let n = lines::put_head(slot, &mut line, 0);
    if !stands(&line, n, text, 0) {
        return None;
    }
    Some(n)
}

fn body_stands(slot: &[u8], n: usize, text: &[u8], at: usize) -> bool
    requires { (length slot.now ≡ slot_size) × (n ≤ max_bytes) × (at + (6 + 2 * n) ≤ length text.now) }
    ensures { result ≡ body_stands (window slot.now body_from n) n text.now at }
{
    let word = stands(b"body\t", 5, text, at);
    let hex = decimal::hexes::same_hex(slot, slot::BODY_FROM, n, text, at + 5);
    let end = text[at + 5 + 2 * n];
    word & (hex & (NEWLINE == end))
}

// How long a step's line is, where it stands there.
fn step_stands(step: Step, text: &[u8], at: usize) -> Option<usize>
    ensures { result ≡ stood (step_line step.op) text.now at }
{
    let mut line = [0u8; LINE];
    let n = lines::put_step(step, &mut line, 0);
    if !stands(&line, n, text, at) {
        return None;
    }
    Some(n)
}

// Do the lines of the first `count` steps stand from `at` on, up to the end of the text?
fn steps_stand(slot: &[u8], count: usize, text: &[u8], at: usize) -> bool
    requires { (steps_from + 16 * count ≤ length slot.now) × (at + length (step_lines (steps_at slot.now steps_from count)) ≡ length text.now) }
    ensures { result ≡ alike eqb (step_lines (steps_at slot.now steps_from count)) (drop at text.now) }
{
    let mut next = at;
    for step in slot::steps_in(slot, count) {
        let Some(wide) = step_stands(step, text, next) else {
            return false;
        };
        next += wide;
    }
    true
}

pub fn is_text(slot: &[u8], text: &[u8]) -> bool
    requires { Held slot.now }
    ensures { result ≡ alike eqb (text_in slot.now) text.now }
{
    if text.len() != lengths::of_text(slot) {
        return false;
    }
    let Some(at) = head_stands(slot, text) else {
        return false;
    };
    let n = slot::check::number_at(slot, 10) - slot::check::number_at(slot, 6);
    if !body_stands(slot, n, text, at) {
        return false;
    }
    steps_stand(slot, slot::check::number_at(slot, 12), text, at + 6 + 2 * n)
}
