// tape PLAN: the records of standard input upgraded by the plan of that file, as 'owl upgrade' does. It needs the reader and the dispatch alone, so that
// less has to be proved for it.
#![tactic(auto)]

use owl_say::console::Console;
use owl_say::files;
use std::io;

// dbn's header in versions 1 to 3.
const HEADER: usize = 16;

fn main(rt: HostRuntime) -> io::Result<()> {
    let stderr = rt.stderr();
    let console = Console {
        rt: &rt,
        stderr: &stderr,
    };
    let mut room = [0; files::ROOM];
    let Some(text) = console.load(1, &mut room)? else {
        return Ok(());
    };
    match owl_tape::read(&rt, &stderr, text, 1)? {
        Some(slot) => owl_tape::run(&rt, &slot, HEADER),
        None => Ok(()),
    }
}
