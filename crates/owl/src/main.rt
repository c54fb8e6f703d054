// owl: plans, hashes and upgrades for a build office at a terminal (docs/OWL.md). Results go to standard output, messages to standard error.
#![tactic(auto)]

mod demo;
mod faults;
mod help;
mod layouts;
mod making;
mod plans;

use owl_say::console::Console;
use owl_say::files;
use std::io;
use std::rt::{Env, Files};

// The length of dbn's header in versions 1 to 3.
const HEADER: usize = 16;

#[derive(Clone, Copy)]
enum Command {
    Help,
    Plan,
    Hash,
    Upgrade,
    Check,
    Map,
}

impl Command {
    fn from_word(word: &[u8]) -> Option<Command> {
        match word {
            b"help" => Some(Command::Help),
            b"plan" => Some(Command::Plan),
            b"hash" => Some(Command::Hash),
            b"upgrade" => Some(Command::Upgrade),
            b"check" => Some(Command::Check),
            b"map" => Some(Command::Map),
            _ => None,
        }
    }
}

fn plan<R: Env + Files + Print, E: Print>(console: &Console<'_, R, E>) -> io::Result<()> {
    let mut room = [0; files::ROOM];
    let Some(text) = console.load_second(3, &mut room)? else {
        return Ok(());
    };
    match making::plan_of(console, text)? {
        Some(slot) => making::say_plan(console, &slot),
        None => Ok(()),
    }
}

fn hash<R: Env + Files + Print, E: Print>(console: &Console<'_, R, E>) -> io::Result<()> {
    let mut room = [0; files::ROOM];
    match console.load_second(3, &mut room)? {
        Some(text) => making::say_hashes(console, text),
        None => Ok(()),
    }
}

fn run<R: Env + Files + Input + Print, E: Print>(
    console: &Console<'_, R, E>,
    command: Command,
) -> io::Result<()> {
    match command {
        Command::Help => help::show(console.rt),
        Command::Plan => plan(console),
        Command::Hash => hash(console),
        Command::Upgrade => plans::upgrade(console),
        Command::Check => plans::check(console),
        Command::Map => plans::map(console),
    }
}

fn main(rt: HostRuntime) -> io::Result<()> {
    let stderr = rt.stderr();
    let console = Console {
        rt: &rt,
        stderr: &stderr,
    };
    if !files::has_arg(&rt, 1) {
        return demo::show(&console);
    }
    let word = files::arg(&rt, 1).ok();
    let command = word.and_then(|word| Command::from_word(word.as_slice()));
    match command {
        Some(command) => run(&console, command),
        None => {
            print!(stderr; "owl: '")?;
            console.complain_arg(1)?;
            println!(stderr; "' is no command; expected plan, hash, upgrade, check, map or help")
        }
    }
}
