// A slot that holds a plan which keeps every rule, and what that plan says.
ghost use Rattle.std.specs.Prelude.{◌≡◌, true};
ghost use Rattle.slot.specs.Slot.{slot_ok};

use crate::check;
use step::packed::Unpacked;

#[derive(Clone, Copy)]
pub struct ValidPlan<'a> {
    pub bytes: &'a [u8],
    pub ghost valid: { slot_ok bytes.now ≡ true },
}

impl<'a> ValidPlan<'a> {
    ghost use Rattle.std.specs.Prelude.{is_some, IfSome};
    ghost use Rattle.slot.specs.Slot.{header_in, size_in, plan_in};
    ghost use Rattle.step.specs.Packed.{steps_of};

    // The plan of a slot, where it keeps them.
    pub fn of(slot: &'a [u8]) -> Option<ValidPlan<'a>>
        ensures valid { is_some result ≡ slot_ok slot.now }
        ensures same { IfSome result (λ plan. plan.bytes.now ≡ slot.now) }
    {
        if !check::is_ok(slot) {
            return None;
        }
        Some(ValidPlan { bytes: slot })
    }

    pub fn header(self) -> usize
        ensures { result ≡ header_in self.entry.bytes.now }
    {
        check::number_in(self.bytes, 6)
    }

    pub fn size(self) -> usize
        ensures { result ≡ size_in self.entry.bytes.now }
    {
        check::number_in(self.bytes, 10)
    }

    pub fn steps(self) -> Unpacked<'a>
        ensures { steps_of result.rest.now ≡ (plan_in self.entry.bytes.now).steps }
    {
        crate::steps_in(self.bytes, check::number_in(self.bytes, 12))
    }
}
