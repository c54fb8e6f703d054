// The file that an argument names, read whole.
ghost use Rattle.std.specs.Prelude.{◌≡◌, ◌<◌, ◌≤◌, ℕ, List, length, take, IfOk};

use arrayvec::ArrayString;
use caseline::input;
use std::env::FillError;
use std::fmt::Write;
use std::marker::Model;
use std::rt::{Env, Files};
use std::{fmt, fs, io, str};

// More than the longest plan text, and room for some two thousand lines of layouts.
pub const ROOM: usize = 65536;

// More than the longest path.
pub const WORD: usize = 4096;

pub type Text = [u8; ROOM];

/// At most `N` bytes.
#[derive(Drop)]
pub struct Bytes<const N: usize> {
    room: [u8; N],
    length: usize,
}

// Clauses see the bytes.
impl<const N: usize> Model for Bytes<N> {
    ghost Value = { List ℕ };

    ghost view = { λ b. take b.length b.room };

    ghost invariant = { λ b. b.length ≤ N };
}

impl<const N: usize> Bytes<N> {
    pub fn as_slice(&self) -> &[u8]
        ensures { result.now ≡ self.now }
    {
        &self.room[..self.length]
    }
}

pub type Word = Bytes<WORD>;

// ---- arguments

// Whether there is an argument k, counted from the command's own name.
pub fn has_arg(rt: &impl Env, k: usize) -> bool {
    !matches!(rt.arg(k, &mut [0]), Err(FillError::NotPresent))
}

// Argument k, where there is one that fits.
pub fn arg(rt: &impl Env, k: usize) -> Result<Word, FillError> {
    let mut room = [0; WORD];
    let length = rt.arg(k, &mut room)?;
    Ok(Bytes { room, length })
}

pub fn say_arg(rt: &impl Env, stream: &impl Print, k: usize) -> io::Result<()> {
    match arg(rt, k) {
        Ok(word) => stream.write_all(word.as_slice()),
        Err(_) => Ok(()),
    }
}

// ---- files

// Why a file is not taken.
#[derive(Drop)]
pub(crate) enum Unread {
    System(io::Error),
    NotUtf8,
    Empty,
    TooLong,
}

impl From<io::Error> for Unread {
    fn from(error: io::Error) -> Unread {
        Unread::System(error)
    }
}

impl fmt::Display for Unread {
    fn fmt<W: fmt::Write>(&self, f: &mut fmt::Formatter<W>) -> fmt::Result {
        match self {
            Unread::System(error) => {
                // The system's words, without the number that stands in brackets behind them.
                let mut words: ArrayString<256> = ArrayString::new();
                let _ = write!(words, "{error}");
                let all = words.as_str();
                let end = all.find('(').unwrap_or(all.len());
                f.write_str(all[..end].trim_ascii_end())
            }
            Unread::NotUtf8 => f.write_str("a file's name that is not UTF-8"),
            Unread::Empty => f.write_str("an empty file"),
            Unread::TooLong => f.write_str("longer than 65535 bytes, the most that is read"),
        }
    }
}

// What the file holds, at the start of the room.
pub(crate) fn read<'a>(rt: &impl Files, path: &str, room: &'a mut Text) -> Result<&'a [u8], Unread>
    ensures { IfOk result (λ text. (0 < length text.now) × (length text.now < ROOM)) }
{
    let mut file = fs::open(rt, path)?;
    match input::read_full(&mut file, room)? {
        // A file that ends at once.
        0 => Err(Unread::Empty),
        // A full room: there may be more.
        ROOM => Err(Unread::TooLong),
        length => Ok(&room[..length]),
    }
}
