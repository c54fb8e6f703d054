// What each command takes.
use std::io;

pub fn show(stdout: &impl Print) -> io::Result<()> {
    print!(stdout;
        "owl: layouts of records and their upgrades\n\n\x20 \
        owl plan LAYOUTS           the plan that upgrades the source record to the target\n\x20 \
        owl hash LAYOUTS           each record's layout hash, and the fields that it visits\n\x20 \
        owl check PLAN             whether the text is a plan, and what it is\n\x20 \
        owl map PLAN               where each byte of the target comes from\n\x20 \
        owl upgrade PLAN [HEADER]  records from standard input, in hex, one a line;\n\x20 \
        \x20                          HEADER is their header's length, 16 if not given\n\x20 \
        owl                        a small upgrade, shown whole\n\n\
        LAYOUTS is a text of a source and a target layout, PLAN what 'owl plan' prints.\n\
        docs/OWL.md has both; examples/ has samples.\n"
    )
}
