// Says of each record of a layout whether it stores the hash of its tables. Standard input: the catalogue's 262 bytes, then the layout.
#![tactic(auto)]

use caseline::input;
use limits::refusal::Failure;
use std::io;
use tuppenceowl::hashing;

const CATALOGUE: usize = 262;

// The most that is read.
const ROOM: usize = 65536;

// Says how each record stands, up to the first that there is not.
fn say_records(rt: &impl Print, cat: &[u8], layout: &[u8]) -> io::Result<()> {
    for k in 0..limits::MAX_RECORDS {
        match hashing::boot_check(cat, layout, k) {
            Ok(is_same) => {
                let word = if is_same { "" } else { "NOT " };
                println!(rt; "record {k}: its hash is {word}the stored one")?
            }
            Err(Failure::NoRecord) => return Ok(()),
            Err(Failure::Refused(refusal)) => {
                println!(rt; "record {k}: refused, number {}", u8::from(refusal))?
            }
        }
    }
    Ok(())
}

fn main(rt: HostRuntime) -> io::Result<()> {
    let mut input = [0; ROOM];
    let n = input::read_full(&mut rt.reader(), &mut input)?;
    match input[..n].split_at_checked(CATALOGUE) {
        None => println!(rt; "too short for a catalogue"),
        Some((cat, layout)) => say_records(&rt, cat, layout),
    }
}
