// Does a slot hold a plan that keeps every rule?
ghost use Rattle.std.specs.Prelude.{◌≡◌, ◌&&◌, ◌+◌, ◌≤◌, ◌<◌, length, leb};
ghost use Rattle.limits.specs.Limits.{max_steps};
ghost use Rattle.lent.specs.Bytes.{number_at};
ghost use Rattle.slot.specs.Plan.{sizes_ok};
ghost use Rattle.slot.specs.Slot.{slot_size, steps_from, header_in, size_in, count_in, plan_in, keeps, slot_ok};

// A number of a slot, or of whatever is lent for one.
pub fn number_at(slot: &[u8], at: usize) -> usize
    requires { at < 16 }
    ensures { (result ≡ number_at slot.now at 2) × (result < 65536) }
{
    lent::wide16(lent::u16_at(slot, at))
}

// Of one that reaches so far.
pub fn number_in(slot: &[u8], at: usize) -> usize
    requires { at + 2 ≤ length slot.now }
    ensures { (result ≡ number_at slot.now at 2) × (result < 65536) }
{
    lent::wide16(lent::u16_in(slot, at))
}

// Hosts lend a slice of any length; that it is a slot's is tested once, in `is_ok`.
fn numbers_ok(slot: &[u8]) -> bool
    requires { length slot.now ≡ slot_size }
    ensures { result ≡ (sizes_ok (plan_in slot.now) && leb (count_in slot.now) max_steps) }
{
    let header = number_in(slot, 6);
    let size = number_in(slot, 10);
    let small = (number_in(slot, 4) <= limits::MAX_BYTES) & (size <= limits::MAX_BYTES);
    let inside = ((header <= limits::MAX_HEADER) & (header <= size)) & (number_in(slot, 8) <= size);
    (small & inside) & (number_in(slot, 12) <= limits::MAX_STEPS)
}

// By branches: rows of comparisons take longer than tests that never fail.
fn steps_ok(slot: &[u8]) -> bool
    requires { (length slot.now ≡ slot_size) × (count_in slot.now ≤ max_steps) }
    ensures { result ≡ keeps slot.now steps_from (count_in slot.now) (header_in slot.now) (size_in slot.now) }
{
    let size = number_in(slot, 10);
    let mut low = number_in(slot, 6);
    for k in 0..number_in(slot, 12) {
        let at = crate::STEPS_FROM + step::packed::SIZE * k;
        let step = step::packed::step_in(slot, at);
        if !step::packed::flags_ok(slot, at) {
            return false;
        }
        if !step.is_ok() {
            return false;
        }
        if !step.is_within(low, size) {
            return false;
        }
        low = step.end();
    }
    true
}

pub fn is_ok(slot: &[u8]) -> bool
    ensures { result ≡ slot_ok slot.now }
{
    if slot.len() != crate::SIZE {
        return false;
    }
    if !numbers_ok(slot) {
        return false;
    }
    steps_ok(slot)
}
