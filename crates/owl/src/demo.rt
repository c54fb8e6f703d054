// A small upgrade that is built in: its layouts, the plan, its map, and one record before and after.
use crate::{HEADER, making};
use owl_say::console::Console;
use owl_tape::{Slot, Tape};
use std::io;
use std::rt::Env;

const LAYOUTS: &str = "struct hd\n\
    field rest 2 u64 2\n\n\
    source order 160 1\n\
    field hd 1 hd\n\
    field price 3 price\n\
    field size 4 u32\n\
    field sequence 5 u32\n\n\
    target order 160 1\n\
    field hd 1 hd\n\
    field sequence 5 u64 mark\n\
    field price 3 price\n\
    field size 4 u32\n\
    field venue 6 u16 default 0100\n";

const RECORD: &str = "0ca002006a150000bc056df2dbe2541680fb30c56203000001000000b0db1100";

pub fn show<R: Env + Print, E: Print>(console: &Console<'_, R, E>) -> io::Result<()> {
    print!(console.rt; "A source and a target layout, as 'owl plan' takes them:\n\n{LAYOUTS}")?;
    match making::plan_of(console, LAYOUTS.as_bytes())? {
        Some(slot) => show_plan(console, &slot),
        None => Ok(()),
    }
}

fn show_plan<R: Print, E: Print>(console: &Console<'_, R, E>, slot: &Slot) -> io::Result<()> {
    let stdout = console.rt;
    print!(stdout; "\nThe plan between them, as 'owl plan' prints it:\n\n")?;
    making::say_plan(console, slot)?;
    print!(stdout; "\nWhere the target's bytes come from, as 'owl map' draws it:\n\n")?;
    owl_map::draw(stdout, slot)?;
    println!(stdout;
        "\nA record with sequence 1170352, and the body that 'owl upgrade' makes of it:\n\n{RECORD}"
    )?;
    let tape = Tape {
        stdout,
        slot,
        source_header: HEADER,
    };
    tape.on_line(RECORD.as_bytes(), 1)?;
    print!(stdout;
        "\nTry next, where this was built:\n\x20 \
        owl help\n  owl plan examples/mbo.layouts\n  owl map examples/mbo.plan\n\x20 \
        owl upgrade examples/mbo.plan < examples/mbo.tape\n"
    )
}
