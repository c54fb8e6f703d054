// A plan laid out in its slot, zero wherever the plan does not reach.
ghost use Rattle.std.specs.Prelude.{◌≡◌, ◌≤◌, length, take};
ghost use Rattle.std.proofs.lemmas.List.Edits.{sets};
ghost use Rattle.limits.specs.Limits.{max_bytes, max_steps};
ghost use Rattle.slot.specs.Slot.{slot_size, steps_from, head_as, packed_steps, plan_of, slot_of};

use crate::{Numbers, UpgradePlan};
use lent::store;
use step::Steps;

fn put_head(numbers: Numbers, count: usize, slot: &mut [u8])
    requires { (count ≤ max_steps) × (slot_size ≤ length slot.old) }
    ensures { slot.new ≡ sets slot.old 0 (head_as numbers.src_rtype numbers.rtype numbers.src_base numbers.header numbers.base numbers.size count) }
{
    store::number16(slot, 0, numbers.src_rtype);
    store::number16(slot, 2, numbers.rtype);
    store::number16(slot, 4, numbers.src_base);
    store::number16(slot, 6, numbers.header);
    store::number16(slot, 8, numbers.base);
    store::number16(slot, 10, numbers.size);
    store::number16(slot, 12, count as u16);
    store::number16(slot, 14, 0);
}

fn put_steps(steps: Steps, slot: &mut [u8])
    requires { (steps.count ≤ max_steps) × (slot_size ≤ length slot.old) }
    ensures { (slot.new ≡ sets slot.old steps_from (packed_steps (take steps.count steps.steps))) × (length (take steps.count steps.steps) ≡ steps.count) }
{
    for k in 0..steps.count {
        let bytes = steps.steps[k].packed();
        let at = crate::STEPS_FROM + step::packed::SIZE * k;
        store::copy(&bytes, 0, slot, at, step::packed::SIZE);
    }
}

pub fn pack(plan: UpgradePlan, body: &[u8], slot: &mut [u8])
    requires { (plan.steps.count ≤ max_steps) × (length body.now ≤ max_bytes) × (slot_size ≤ length slot.old) }
    ensures { slot.new ≡ sets slot.old 0 (slot_of (plan_of plan body.now)) }
{
    let count = plan.steps.count;
    put_head(plan.numbers, count, slot);
    put_steps(plan.steps, slot);
    let end = crate::STEPS_FROM + step::packed::SIZE * count;
    store::zeros(slot, end, crate::BODY_FROM - end);
    store::copy(body, 0, slot, crate::BODY_FROM, body.len());
    store::zeros(
        slot,
        crate::BODY_FROM + body.len(),
        limits::MAX_BYTES - body.len(),
    );
}
