// UpgradePlan::new of dbn's upgrade.rs, with every refusal tested.
#![tactic(auto)]

pub mod select;

ghost use Rattle.std.specs.Prelude.{◌≡◌, ◌*◌, ◌<◌, ◌≤◌, length};
ghost use Rattle.limits.specs.Limits.{max_bytes, max_fields, max_header};
ghost use Rattle.layout.specs.Layout.{record_at};
ghost use Rattle.record_size.specs.Size.{record_size};
ghost use Rattle.slot.specs.Slot.{slot_size};
ghost use Rattle.planner.specs.Planner.{between_of, planned_of, or_found, laid_between, after_plan};

use coalesce::Bases;
use field::Holder;
use layout::block;
use layout::block::Head;
use limits::refusal::{Failure, Refusal};
use slot::{Numbers, UpgradePlan};

// A cast whose bound is known: `try_from` would answer an error that cannot come.
fn in_two_bytes(n: usize) -> u16
    requires { n < 65536 }
    ensures { result ≡ n }
{
    n as u16
}

// The plan between the records whose heads are `from` and `to`, laid into the room that is lent for it; `size` is the target's record size.
fn lay(
    cat: &[u8],
    source: &[u8],
    from: Head,
    target: &[u8],
    to: Head,
    size: usize,
    header: usize,
    body: &[u8],
    marks: &[u8],
    room: &mut [u8],
)
    requires { (header ≤ max_header) × ((record_at source.now from).base ≤ max_bytes) × (record_size (record_at target.now to) ≤ max_bytes) × (length (record_at target.now to).table ≤ 16 * max_fields) × (length body.now ≤ max_bytes) × (slot_size ≤ length room.old) × (length (record_at source.now from).table ≤ 16 * max_fields) × (size ≡ record_size (record_at target.now to)) }
    ensures { room.new ≡ laid_between cat.now (record_at source.now from) (record_at target.now to) header body.now marks.now room.old }
{
    let bases = Bases {
        source: block::record_base(source, from),
        target: block::record_base(target, to),
    };
    let have = block::table_at(Holder::Record, source, from);
    let want = block::table_at(Holder::Record, target, to);
    let steps = steps::planned(cat, have, want, marks, bases);
    let numbers = Numbers {
        src_rtype: block::record_rtype(source, from),
        rtype: block::record_rtype(target, to),
        src_base: in_two_bytes(bases.source),
        header: in_two_bytes(header),
        base: in_two_bytes(bases.target),
        size: in_two_bytes(size),
    };
    slot::pack::pack(
        UpgradePlan {
            numbers: numbers,
            steps: steps,
        },
        body,
        room,
    );
}

fn between(
    cat: &[u8],
    source: &[u8],
    from: Head,
    target: &[u8],
    to: Head,
    header: usize,
    body: &[u8],
    marks: &[u8],
    room: &mut [u8],
) -> Result<(), Failure>
    requires { ((record_at source.now from).base ≤ max_bytes) × (record_size (record_at target.now to) ≤ max_bytes) × (length (record_at target.now to).table ≤ 16 * max_fields) × (length (record_at source.now from).table ≤ 16 * max_fields) }
    ensures { (result ≡ between_of cat.now (record_at target.now to) header body.now marks.now (length room.old)) × (room.new ≡ or_found result (laid_between cat.now (record_at source.now from) (record_at target.now to) header body.now marks.now room.old) room.old) }
{
    let want = block::table_at(Holder::Record, target, to);
    let size = record_size::record_size(target, to);
    if !defaults::header_ok(cat, header, size, want) {
        return Err(Failure::Refused(Refusal::BadHeader));
    }
    if !defaults::defaults_ok(cat, header, size, want, marks, body) {
        return Err(Failure::Refused(Refusal::BadDefaults));
    }
    if room.len() < slot::SIZE {
        return Err(Failure::Refused(Refusal::NoRoom));
    }
    lay(
        cat, source, from, target, to, size, header, body, marks, room,
    );
    Ok(())
}

// From record k of the source's layout to record `to` of the target's.
pub fn plan(
    cat: &[u8],
    source: &[u8],
    k: usize,
    target: &[u8],
    to: usize,
    header: usize,
    body: &[u8],
    marks: &[u8],
    room: &mut [u8],
) -> Result<(), Failure>
    ensures { (result ≡ planned_of cat.now source.now k target.now to header body.now marks.now (length room.old)) × (room.new ≡ after_plan cat.now source.now k target.now to header body.now marks.now room.old) }
{
    admission::admit_both(cat, source, target)?;
    let there = k < block::count_of(Holder::Record, source);
    if there & (to < block::count_of(Holder::Record, target)) {
        let from = block::record_head(k);
        let at = block::record_head(to);
        return between(cat, source, from, target, at, header, body, marks, room);
    }
    Err(Failure::NoRecord)
}
