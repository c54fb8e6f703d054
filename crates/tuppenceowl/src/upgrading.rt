// The upgrade of a record, without its header: by one plan, or by the first plan of its rtype. Plans are lent as slots.
ghost use Rattle.std.specs.Prelude.{◌≡◌};
ghost use Rattle.dispatch.specs.Dispatch.{applied_of, after_apply, upgraded_of, after_upgrade};

pub use dispatch::Upgraded;
use limits::refusal::Refusal;

// UpgradePlan::apply of dbn's upgrade.rs (refusals 9, 11, 16).
pub fn apply(slot: &[u8], src: &[u8], stated: usize, dst: &mut [u8]) -> Result<Upgraded, Refusal>
    ensures answer { result ≡ applied_of slot.now src.now stated dst.old }
    ensures target { dst.new ≡ after_apply slot.now src.now stated dst.old }
{
    dispatch::apply(slot, src, stated, dst)
}

// Upgrader::upgrade (refusals 7, 9, 10, 11, 16).
pub fn upgrade(
    plans: &[u8],
    unplanned: &[u16],
    rtype: u16,
    src_header: usize,
    dst_header: usize,
    src: &[u8],
    stated: usize,
    dst: &mut [u8],
) -> Result<Upgraded, Refusal>
    ensures answer { result ≡ upgraded_of plans.now unplanned.now rtype src_header dst_header src.now stated dst.old }
    ensures target { dst.new ≡ after_upgrade plans.now unplanned.now rtype src_header dst_header src.now stated dst.old }
{
    dispatch::upgrade(
        plans, unplanned, rtype, src_header, dst_header, src, stated, dst,
    )
}
