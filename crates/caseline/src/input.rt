// Standard input: read whole into lent bytes, or piece by piece and line by line.
ghost use Rattle.std.specs.Prelude.{◌≡◌, ◌≤◌, length, IfOk};

use std::io;
use std::io::Read;

// More than the longest line.
pub const ROOM_SIZE: usize = 131072;

const NEWLINE: u8 = b'\n';

// An error is the reader's; it leaves the buffer as long as it was.
fn read(reader: &mut impl Read, buf: &mut [u8]) -> io::Result<usize>
    ensures inside { IfOk result (λ n. n ≤ length buf.old) }
    ensures kept { length buf.new ≡ length buf.old }
{
    reader.read(buf)
}

// Reads until the buffer is full or the input ends, and tells how many bytes stand at its start then.
pub fn read_full(reader: &mut impl Read, buf: &mut [u8]) -> io::Result<usize>
    ensures { IfOk result (λ n. n ≤ length buf.new) }
{
    let mut done = 0;
    // Each turn goes on by as many bytes as the reader gives, so no range counts the turns.
    while done < buf.len() {
        let got = read(reader, &mut buf[done..])?;
        if got == 0 {
            return Ok(done);
        }
        done += got;
    }
    Ok(done)
}

// Calls `answer` on each line that has its end, and tells where the rest starts.
fn whole_lines<F: FnMut(&[u8]) -> io::Result<()>>(bytes: &[u8], answer: &mut F) -> io::Result<usize>
    requires { F.IsAlwaysCallable answer.old }
    ensures inside { IfOk result (λ rest. rest ≤ length bytes.now) }
    ensures callable { F.IsAlwaysCallable answer.new }
{
    let Some(last) = bytes.iter().rposition(|b| *b == NEWLINE) else {
        return Ok(0);
    };
    for line in bytes[..last].split(|b| *b == NEWLINE) {
        answer(line)?;
    }
    Ok(last + 1)
}

// Calls `answer` on each line of what is read, the last one too if it lacks its end. A line that fills the room goes, but for
// a byte that no word starts with: so its answer is that it is malformed.
pub fn each_line<F: FnMut(&[u8]) -> io::Result<()>>(
    reader: &mut impl Read,
    mut answer: F,
) -> io::Result<()>
    requires { F.IsAlwaysCallable answer }
{
    let mut room = [0; ROOM_SIZE];
    let mut waiting = 0;
    // Nothing says that the input ends: so many turns no run uses up.
    for _ in 0..u64::MAX {
        let got = read(reader, &mut room[waiting..])?;
        let have = waiting + got;
        if got == 0 {
            if have != 0 {
                answer(&room[..have])?;
            }
            return Ok(());
        }
        let rest = whole_lines(&room[..have], &mut answer)?;
        room.copy_within(rest..have, 0);
        waiting = have - rest;
        if waiting == ROOM_SIZE {
            room[0] = b'?';
            waiting = 1;
        }
    }
    Ok(())
}
