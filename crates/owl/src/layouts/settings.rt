// The items that stand outside of all records and structs.
use crate::layouts::fault::{Fault, Flaw};
use crate::layouts::item::Item;
use crate::layouts::line::Line;
use crate::layouts::{Chosen, Header};
use field::Holder;
use owl_blocks::room::{Room, Side};
use owl_blocks::types;

pub fn header(line: Line<'_>) -> Result<Header, Flaw<'_>> {
    Ok(Header {
        bytes: line.only_number()?,
        line: line.number,
    })
}

// The first record of a side with the name that word k is.
fn record_of<'a>(line: Line<'a>, k: usize, room: &Room, side: Side) -> Result<usize, Flaw<'a>> {
    room.block(side)
        .named(Holder::Record, line.word(k))
        .map(usize::from)
        .ok_or(line.flaw(k, Fault::NoSuch))
}

// Which records the plan is between.
pub fn plan<'a>(line: Line<'a>, room: &Room) -> Result<Chosen, Flaw<'a>> {
    line.has_words(3, Item::Plan)?;
    Ok(Chosen {
        source: record_of(line, 1, room, Side::Source)?,
        target: record_of(line, 2, room, Side::Target)?,
    })
}

// Another catalogue than the one that is built in.
pub fn catalogue<'a>(line: Line<'a>, place: &mut [u8; types::CATALOGUE]) -> Result<(), Flaw<'a>> {
    if caseline::hex(line.word(1), place) != Some(types::CATALOGUE) {
        return Err(line.flaw(1, Fault::CatalogueLength));
    }
    tuppenceowl::check_catalogue(place).map_err(|refusal| line.flaw(1, Fault::Refused(refusal)))
}
