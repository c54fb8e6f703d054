// The plan and the hashes of a text of layouts.
use crate::layouts::{Chosen, Layouts};
use crate::{HEADER, faults, layouts};
use field::Holder;
use limits::refusal::{Failure, Refusal};
use owl_blocks::pack::Block;
use owl_blocks::room::{Room, Side};
use owl_say::console::Console;
use owl_say::refusals;
use owl_tape::Slot;
use std::io;
use std::rt::Env;
use tuppenceowl::hashing::Walked;
use tuppenceowl::{hashing, planning, texting};

// Bytes of the longest plan's text, and more.
const LONGEST: usize = 16384;

// Why there is no plan.
#[derive(Clone, Copy)]
enum Unplanned {
    NoSource,
    NoTarget,
    // Of two records, one is missing.
    NoRecord,
    // The target record of this number.
    Refused(Refusal, usize),
}

// ---- the plan

// The records that the text names, or its first source record and the one that is selected.
fn chosen(layouts: &Layouts<'_>, room: &Room) -> Result<Chosen, Unplanned> {
    if let Some(chosen) = layouts.chosen {
        return Ok(chosen);
    }
    let source = 0;
    match planning::select(
        &room.catalogue,
        room.source.layout(),
        source,
        room.target.layout(),
        layouts.wanted,
    ) {
        Ok(Some(target)) => Ok(Chosen { source, target }),
        Ok(None) => Err(Unplanned::NoTarget),
        Err(Failure::NoRecord) => Err(Unplanned::NoSource),
        Err(Failure::Refused(refusal)) => Err(Unplanned::Refused(refusal, 0)),
    }
}

// How many default bytes a target record has behind the header; one that is too long has none.
fn body_size(room: &Room, target: usize, header: usize) -> usize {
    match tuppenceowl::record_size(&room.catalogue, room.target.layout(), target) {
        Ok(size) if size <= limits::MAX_BYTES => size.saturating_sub(header),
        _ => 0,
    }
}

fn plan(layouts: &Layouts<'_>, room: &Room) -> Result<Slot, Unplanned> {
    let Chosen { source, target } = chosen(layouts, room)?;
    let header = layouts
        .header
        .map_or(HEADER, |header| usize::from(header.bytes));
    let Some(defaults) = room.defaults.get(target) else {
        return Err(Unplanned::NoRecord);
    };
    let behind = header.min(limits::MAX_BYTES);
    let body = lent::part(&defaults.bytes, behind, body_size(room, target, behind));
    let mut slot = [0; slot::SIZE];
    match planning::plan(
        &room.catalogue,
        room.source.layout(),
        source,
        room.target.layout(),
        target,
        header,
        body,
        &defaults.marks,
        &mut slot,
    ) {
        Ok(()) => Ok(slot),
        Err(Failure::NoRecord) => Err(Unplanned::NoRecord),
        Err(Failure::Refused(refusal)) => Err(Unplanned::Refused(refusal, target)),
    }
}

// ---- why there is none

// The line of the item that a refusal concerns: the header's, or else the target's; where there is none, behind the text.
fn line_of(layouts: &Layouts<'_>, room: &Room, refusal: Refusal, target: usize) -> usize {
    match (refusal, layouts.header) {
        (Refusal::BadHeader, Some(header)) => header.line,
        _ if room.target.records == 0 => layouts.lines.saturating_add(1),
        _ => room
            .defaults
            .get(target)
            .map_or(0, |defaults| defaults.line),
    }
}

fn say_unplanned<R: Env, E: Print>(
    console: &Console<'_, R, E>,
    layouts: &Layouts<'_>,
    room: &Room,
    why: Unplanned,
) -> io::Result<()> {
    let stderr = console.stderr;
    if let Unplanned::Refused(refusal, target) = why {
        faults::place(console, line_of(layouts, room, refusal, target))?;
        return refusals::refused(stderr, refusal);
    }
    console.complain_arg(2)?;
    match why {
        Unplanned::NoTarget => {
            print!(stderr; ": no target record is selected for the source's '")?;
            stderr.write_all(room.source.name_of(Holder::Record, 0))?;
            println!(stderr; "';\n  expected one of its rtype, or a line 'plan SOURCE TARGET'")
        }
        Unplanned::NoSource => {
            println!(stderr; ": no source record; expected a line 'source NAME RTYPE SCHEMA'")
        }
        _ => println!(stderr; ": a record is missing; expected a source and a target"),
    }
}

// The plan of a text; if it has none, it was said why.
pub fn plan_of<R: Env, E: Print>(
    console: &Console<'_, R, E>,
    text: &[u8],
) -> io::Result<Option<Slot>> {
    let mut room = layouts::room_of(text);
    let layouts = match layouts::read(text, &mut room) {
        Ok(layouts) => layouts,
        Err(flaw) => {
            faults::say(console, &flaw)?;
            return Ok(None);
        }
    };
    match plan(&layouts, &room) {
        Ok(slot) => Ok(Some(slot)),
        Err(why) => {
            say_unplanned(console, &layouts, &room, why)?;
            Ok(None)
        }
    }
}

pub fn say_plan<R: Print, E: Print>(console: &Console<'_, R, E>, slot: &Slot) -> io::Result<()> {
    let mut text = [0; LONGEST];
    match texting::write_plan(slot, &mut text) {
        Ok(n) => console.rt.write_all(lent::part(&text, 0, n)),
        Err(refusal) => refusals::refused(console.stderr, refusal),
    }
}

// ---- the hashes

fn say_record(stdout: &impl Print, side: Side, block: &Block, k: u8) -> io::Result<()> {
    let rtype = block.rtype_of(k);
    print!(stdout; "{side} ")?;
    stdout.write_all(block.name_of(Holder::Record, k))?;
    print!(stdout; " rtype {rtype} ")
}

fn say_side(stdout: &impl Print, room: &Room, side: Side) -> io::Result<()> {
    let block = room.block(side);
    for k in 0..limits::MAX_RECORDS as u8 {
        match hashing::layout_hash(&room.catalogue, block.layout(), usize::from(k)) {
            Ok(Walked { fp, visits }) => {
                say_record(stdout, side, block, k)?;
                println!(stdout; "hash {fp:016x} visits {visits}")?;
            }
            Err(Failure::Refused(refusal)) => {
                say_record(stdout, side, block, k)?;
                refusals::refused(stdout, refusal)?;
            }
            Err(Failure::NoRecord) => return Ok(()),
        }
    }
    Ok(())
}

pub fn say_hashes<R: Env + Print, E: Print>(
    console: &Console<'_, R, E>,
    text: &[u8],
) -> io::Result<()> {
    let mut room = layouts::room_of(text);
    match layouts::read(text, &mut room) {
        Ok(_) => {
            say_side(console.rt, &room, Side::Source)?;
            say_side(console.rt, &room, Side::Target)
        }
        Err(flaw) => faults::say(console, &flaw),
    }
}
