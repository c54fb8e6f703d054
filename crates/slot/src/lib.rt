// UpgradePlan of dbn's upgrade.rs, and the slot of lent bytes in which it is handed over.
#![tactic(auto)]

pub mod check;
pub mod pack;
pub mod valid;

ghost use Rattle.std.specs.Prelude.{◌≡◌, ◌+◌, ◌*◌, ◌≤◌, length};
ghost use Rattle.slot.specs.Slot.{steps_from};
ghost use Rattle.step.specs.Packed.{steps_at, steps_of};

use step::Steps;
use step::packed::Unpacked;

// Where the steps start, where the body does, and where the slot ends.
pub const STEPS_FROM: usize = 16;

pub const BODY_FROM: usize = STEPS_FROM + step::packed::SIZE * limits::MAX_STEPS;

pub const SIZE: usize = BODY_FROM + limits::MAX_BYTES;

// What a plan says besides its steps and its body.
#[derive(Clone, Copy, Debug, PartialEq, Eq)]
pub struct Numbers {
    pub src_rtype: u16,
    pub rtype: u16,
    pub src_base: u16,
    pub header: u16,
    pub base: u16,
    pub size: u16,
}

// A plan by value holds an array of Steps; its body is lent beside it.
#[derive(Drop)]
pub struct UpgradePlan {
    pub numbers: Numbers,
    pub steps: Steps,
}

// The first `count` steps of a slot.
pub fn steps_in(slot: &[u8], count: usize) -> Unpacked<'_>
    requires { steps_from + 16 * count ≤ length slot.now }
    ensures { steps_of result.rest.now ≡ steps_at slot.now steps_from count }
{
    let end = STEPS_FROM + step::packed::SIZE * count;
    step::packed::steps_in(&slot[STEPS_FROM..end])
}
