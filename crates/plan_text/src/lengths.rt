// How long a plan's text is, before any of it is stored.
ghost use Rattle.std.specs.Prelude.{◌≡◌, ◌+◌, ◌*◌, ◌≤◌, length};
ghost use Rattle.limits.specs.Limits.{max_steps};
ghost use Rattle.slot.specs.Slot.{slot_size, steps_from};
ghost use Rattle.step.specs.Packed.{steps_at};
ghost use Rattle.plan_text.specs.Held.{Held, tabbed, head_in};
ghost use Rattle.plan_text.specs.Text.{step_line, step_lines};
ghost use Rattle.plan_text.specs.Writing.{text_in};

use decimal::cell_length;
use step::{Op, Step};

fn of_tabbed(slot: &[u8], n: usize) -> usize
    requires { (2 * n ≤ length slot.now) × (n ≤ 8) }
    ensures { (result ≡ length (tabbed slot.now 0 n)) × (result ≤ 6 * n) }
{
    let mut sum = 0;
    for k in 0..n {
        sum += cell_length(lent::u16_in(slot, 2 * k));
    }
    sum
}

fn of_head(slot: &[u8]) -> usize
    requires { length slot.now ≡ slot_size }
    ensures { (result ≡ length (head_in slot.now)) × (result ≤ 49) }
{
    7 + of_tabbed(slot, 6) + cell_length(lent::u16_in(slot, 12))
}

pub fn of_step(step: Step) -> usize
    ensures { (result ≡ length (step_line step.op)) × (result ≤ 32) }
{
    match step.op {
        Op::Copy {
            src_offset,
            dst_offset,
            size,
        } => 5 + (cell_length(src_offset) + (cell_length(dst_offset) + cell_length(size))),
        Op::Int {
            src_offset,
            dst_offset,
            src_size,
            dst_size,
            ..
        } => {
            let offsets = cell_length(src_offset) + cell_length(dst_offset);
            8 + (offsets + (cell_length(src_size) + cell_length(dst_size)))
        }
    }
}

fn of_steps(slot: &[u8], count: usize) -> usize
    requires { (length slot.now ≡ slot_size) × (count ≤ max_steps) }
    ensures { (result ≡ length (step_lines (steps_at slot.now steps_from count))) × (result ≤ 32 * max_steps) }
{
    let mut sum = 0;
    for step in slot::steps_in(slot, count) {
        sum += of_step(step);
    }
    sum
}

// `Held` asks for less than a `ValidPlan`, and so do the writer's lines and the comparison: sizes that fit, whatever the steps.
pub fn of_text(slot: &[u8]) -> usize
    requires { Held slot.now }
    ensures { (result ≡ length (text_in slot.now)) × (result ≤ 16384) }
{
    let header = lent::wide16(lent::u16_in(slot, 6));
    let size = lent::wide16(lent::u16_in(slot, 10));
    let count = lent::wide16(lent::u16_in(slot, 12));
    let body = 6 + 2 * (size - header);
    of_head(slot) + (body + of_steps(slot, count))
}
