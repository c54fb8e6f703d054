// The mark and the default of a target's field, which the cursor has just placed.
use crate::layouts::fault::{Fault, Flaw};
use crate::layouts::line::Line;
use crate::layouts::open_table::Table;
use caseline::put;
use owl_blocks::room::Defaults;
use owl_blocks::types::{Class, Kind};

// Only an integer has a mark. Its default is the largest value of its kind: the last bytes of that of eight bytes.
pub fn mark(defaults: &mut Defaults, table: &Table, kind: Kind) -> Option<()> {
    let largest = match kind.class {
        Class::Unsigned => u64::MAX.to_le_bytes(),
        Class::Signed => i64::MAX.to_le_bytes(),
        Class::Text | Class::Other => return None,
    };
    let from = largest.len().saturating_sub(usize::from(kind.width));
    let offset = usize::from(table.last().offset);
    put::text(&mut defaults.bytes, offset, &largest[from..]);
    defaults.marks[table.last_row()] = 1;
    Some(())
}

// The last of so many words.
pub fn put<'a>(
    line: Line<'a>,
    words: usize,
    defaults: &mut Defaults,
    table: &Table,
) -> Result<(), Flaw<'a>> {
    let k = words.saturating_sub(1);
    let field = table.last();
    let mut space = [0; limits::MAX_BYTES];
    let Some(n) = caseline::hex(line.word(k), &mut space) else {
        return Err(line.flaw(k, Fault::NoHex));
    };
    if n != usize::from(field.size) {
        return Err(line.flaw(k, Fault::DefaultLength));
    }
    put::text(&mut defaults.bytes, usize::from(field.offset), &space[..n]);
    Ok(())
}
