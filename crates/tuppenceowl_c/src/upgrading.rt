// The upgrade of a record: the target's rtype and the record's size go into two lent numbers.
ghost use Rattle.std.specs.Prelude.{◌≡◌};
ghost use Rattle.dispatch.specs.Dispatch.{applied_of, after_apply, upgraded_of, after_upgrade};
ghost use Rattle.tuppenceowl_c.specs.Upgrading.{upgraded_status, rtype_or, size_or};

use limits::refusal::Refusal;
use tuppenceowl::upgrading;
use tuppenceowl::upgrading::Upgraded;

fn tell(answer: Result<Upgraded, Refusal>, became: &mut u16, size: &mut usize) -> u8
    ensures status { result ≡ upgraded_status answer }
    ensures became { became.new ≡ rtype_or answer became.old }
    ensures size { size.new ≡ size_or answer size.old }
{
    match answer {
        Ok(upgraded) => {
            *became = upgraded.rtype;
            *size = upgraded.size;
            0
        }
        Err(why) => limits::refusal::number(why),
    }
}

#[unsafe(no_mangle)]
pub extern "C" fn owl_apply(
    slot: &[u8],
    src: &[u8],
    stated: usize,
    dst: &mut [u8],
    became: &mut u16,
    size: &mut usize,
) -> u8
    ensures status { result ≡ upgraded_status (applied_of slot.now src.now stated dst.old) }
    ensures became { became.new ≡ rtype_or (applied_of slot.now src.now stated dst.old) became.old }
    ensures size { size.new ≡ size_or (applied_of slot.now src.now stated dst.old) size.old }
    ensures target { dst.new ≡ after_apply slot.now src.now stated dst.old }
{
    let answer = upgrading::apply(slot, src, stated, dst);
    tell(answer, became, size)
}

#[unsafe(no_mangle)]
pub extern "C" fn owl_upgrade(
    plans: &[u8],
    unplanned: &[u16],
    rtype: u16,
    src_header: usize,
    dst_header: usize,
    src: &[u8],
    stated: usize,
    dst: &mut [u8],
    became: &mut u16,
    size: &mut usize,
) -> u8
    ensures status { result ≡ upgraded_status (upgraded_of plans.now unplanned.now rtype src_header dst_header src.now stated dst.old) }
    ensures became { became.new ≡ rtype_or (upgraded_of plans.now unplanned.now rtype src_header dst_header src.now stated dst.old) became.old }
    ensures size { size.new ≡ size_or (upgraded_of plans.now unplanned.now rtype src_header dst_header src.now stated dst.old) size.old }
    ensures target { dst.new ≡ after_upgrade plans.now unplanned.now rtype src_header dst_header src.now stated dst.old }
{
    let answer = upgrading::upgrade(
        plans, unplanned, rtype, src_header, dst_header, src, stated, dst,
    );
    tell(answer, became, size)
}
