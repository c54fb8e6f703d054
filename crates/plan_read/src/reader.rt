// The reader: what the text would be the plan of is taken into a slot of zeros, judged by the plan's rules, and compared with the text.
ghost use Rattle.std.specs.Prelude.{◌≡◌, ◌&&◌, ◌-◌, leb, eqb};
ghost use Rattle.limits.specs.Limits.{max_bytes, max_steps};
ghost use Rattle.lent.specs.Scan.{alike};
ghost use Rattle.slot.specs.Slot.{header_in, size_in, count_in, slot_ok};
ghost use Rattle.plan_text.specs.Writing.{text_in};
ghost use Rattle.plan_read.specs.Reading.{read_of, after_reading};

use limits::refusal::Refusal;
use slot::check;

// Do its body and its steps have room?
fn has_room(slot: &[u8]) -> bool
    ensures { result ≡ (leb (size_in slot.now) max_bytes && leb (count_in slot.now) max_steps) }
{
    (check::number_at(slot, 10) <= limits::MAX_BYTES)
        & (check::number_at(slot, 12) <= limits::MAX_STEPS)
}

fn body_length(slot: &[u8]) -> usize
    ensures { result ≡ size_in slot.now - header_in slot.now }
{
    check::number_at(slot, 10).saturating_sub(check::number_at(slot, 6))
}

// Does it keep every rule, and is the text its own?
fn is_plan_of(slot: &[u8], text: &[u8]) -> bool
    ensures { result ≡ (slot_ok slot.now && alike eqb (text_in slot.now) text.now) }
{
    if !check::is_ok(slot) {
        return false;
    }
    plan_match::is_text(slot, text)
}

// The plan stands in its slot, or it is said why it does not.
pub fn read_plan(text: &[u8], plan: &mut [u8]) -> Result<(), Refusal>
    ensures { (result ≡ read_of text.now plan.old) × (plan.new ≡ after_reading text.now plan.old) }
{
    if plan.len() < slot::SIZE {
        return Err(Refusal::NoRoom);
    }
    let mut slot = [0u8; slot::SIZE];
    let behind = plan_take::take_head(text, &mut slot);
    if !has_room(&slot) {
        return Err(Refusal::BadPlan);
    }
    let n = body_length(&slot);
    let count = check::number_at(&slot, 12);
    plan_take::take_rest(text, behind, n, count, &mut slot);
    if !is_plan_of(&slot, text) {
        return Err(Refusal::BadPlan);
    }
    lent::store::copy(&slot, 0, plan, 0, slot::SIZE);
    Ok(())
}
