// UpgradePlan::apply and Upgrader::upgrade of dbn's upgrade.rs, without the headers: every refusal tested, plans lent as slots.
#![tactic(auto)]

pub mod choice;

ghost use Rattle.std.specs.Prelude.{◌≡◌, ◌-◌, ◌≤◌, length};
ghost use Rattle.std.proofs.lemmas.List.Edits.{sets};
ghost use Rattle.limits.specs.Limits.{max_bytes, max_header};
ghost use Rattle.lent.specs.Bytes.{window};
ghost use Rattle.slot.specs.Slot.{plan_in};
ghost use Rattle.interpreter.specs.Run.{upgraded};
ghost use Rattle.dispatch.specs.Dispatch.{bad_length, after, planned_of, applied_of, after_apply, bare_of, upgraded_of, after_upgrade};

use limits::refusal::Refusal;
use slot::check;
use slot::valid::ValidPlan;

// The target's rtype, and the upgraded record's size.
#[derive(Clone, Copy, Debug, PartialEq, Eq)]
pub struct Upgraded {
    pub rtype: u16,
    pub size: usize,
}

fn bad_length(src: &[u8], stated: usize) -> bool
    ensures { result ≡ bad_length src.now stated }
{
    (src.len() < stated) | (limits::MAX_BYTES < stated)
}

// Refusals 11 and 16, then the plan's steps.
fn planned(slot: &[u8], src: &[u8], dst: &mut [u8]) -> Result<Upgraded, Refusal>
    ensures answer { result ≡ planned_of slot.now dst.old }
    ensures target { dst.new ≡ after (planned_of slot.now dst.old) (upgraded (plan_in slot.now) src.now dst.old) dst.old }
{
    let size = check::number_at(slot, 10);
    if dst.len() < size {
        return Err(Refusal::NoRoom);
    }
    // all of the slot, as a slice made here: one handed on would be waited for
    let n = slot.len();
    let Some(plan) = ValidPlan::of(&slot[..n]) else {
        return Err(Refusal::BadPlan);
    };
    interpreter::apply(plan, src, dst);
    Ok(Upgraded {
        rtype: lent::u16_at(slot, 2),
        size,
    })
}

// UpgradePlan::apply on the first bytes of src, as many as are stated.
pub fn apply(slot: &[u8], src: &[u8], stated: usize, dst: &mut [u8]) -> Result<Upgraded, Refusal>
    ensures answer { result ≡ applied_of slot.now src.now stated dst.old }
    ensures target { dst.new ≡ after_apply slot.now src.now stated dst.old }
{
    if bad_length(src, stated) {
        return Err(Refusal::BadLength);
    }
    planned(slot, lent::window(src, 0, stated), dst)
}

// Without a plan: refusals 10 and 11, then the bytes after the source header go behind the target's.
fn bare(
    unplanned: &[u16],
    rtype: u16,
    src_header: usize,
    dst_header: usize,
    src: &[u8],
    dst: &mut [u8],
) -> Result<Upgraded, Refusal>
    requires { (src_header ≤ length src.now) × (length src.now ≤ max_bytes) × (dst_header ≤ max_header) }
    ensures answer { result ≡ bare_of unplanned.now rtype src_header dst_header (length src.now) dst.old }
    ensures target { dst.new ≡ after (bare_of unplanned.now rtype src_header dst_header (length src.now) dst.old) (sets dst.old dst_header (window src.now src_header (length src.now - src_header))) dst.old }
{
    if choice::is_listed(unplanned, rtype) {
        return Err(Refusal::Unplanned);
    }
    let n = src.len() - src_header;
    let size = dst_header + n;
    if dst.len() < size {
        return Err(Refusal::NoRoom);
    }
    lent::store::copy(src, src_header, dst, dst_header, n);
    Ok(Upgraded { rtype, size })
}

// Upgrader::upgrade: the first plan of the rtype, of a run of slots.
pub fn upgrade(
    plans: &[u8],
    unplanned: &[u16],
    rtype: u16,
    src_header: usize,
    dst_header: usize,
    src: &[u8],
    stated: usize,
    dst: &mut [u8],
) -> Result<Upgraded, Refusal>
    ensures answer { result ≡ upgraded_of plans.now unplanned.now rtype src_header dst_header src.now stated dst.old }
    ensures target { dst.new ≡ after_upgrade plans.now unplanned.now rtype src_header dst_header src.now stated dst.old }
{
    if (limits::MAX_HEADER < src_header) | (limits::MAX_HEADER < dst_header) {
        return Err(Refusal::BadHeader);
    }
    if bad_length(src, stated) | (stated < src_header) {
        return Err(Refusal::BadLength);
    }
    let record = lent::window(src, 0, stated);
    match choice::first_plan(plans, rtype) {
        Some(at) => planned(lent::window(plans, at, slot::SIZE), record, dst),
        None => bare(unplanned, rtype, src_header, dst_header, record, dst),
    }
}
