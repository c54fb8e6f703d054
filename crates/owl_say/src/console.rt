// The system as a command sees it.
ghost use Rattle.std.specs.Prelude.{◌<◌, length, IfOk, IfSome};

use crate::files;
use crate::files::{ROOM, Text, Unread};
use std::env::FillError;
use std::rt::{Env, Files};
use std::{io, str};

/// Arguments, files, input and results by `rt`; messages go to `stderr`.
#[derive(Clone, Copy)]
pub struct Console<'a, R, E> {
    pub rt: &'a R,
    pub stderr: &'a E,
}

impl<'a, R: Env, E: Print> Console<'a, R, E> {
    // Argument k, in a message.
    pub fn complain_arg(&self, k: usize) -> io::Result<()> {
        files::say_arg(self.rt, self.stderr, k)
    }
}

impl<'a, R: Env + Files, E: Print> Console<'a, R, E> {
    // The file that argument k names, at the start of the room; where there is none, it was said why.
    pub fn load<'t>(&self, k: usize, room: &'t mut Text) -> io::Result<Option<&'t [u8]>>
        ensures { IfOk result (λ found. IfSome found (λ text. (0 < length text.now) × (length text.now < ROOM))) }
    {
        let name = match files::arg(self.rt, k) {
            Ok(name) => name,
            Err(FillError::TooLong) => {
                println!(self.stderr; "owl: the file's name: File name too long")?;
                return Ok(None);
            }
            Err(FillError::NotPresent) => {
                println!(self.stderr; "owl: the file's name: Invalid argument")?;
                return Ok(None);
            }
        };
        let read = match str::from_utf8(name.as_slice()) {
            Ok(path) => files::read(self.rt, path, room),
            Err(_) => Err(Unread::NotUtf8),
        };
        match read {
            Ok(text) => Ok(Some(text)),
            Err(why) => {
                self.stderr.write_all(name.as_slice())?;
                println!(self.stderr; ": {why}")?;
                Ok(None)
            }
        }
    }

    // The file behind the command, which has at most so many words, its own name among them.
    pub fn load_second<'t>(&self, most: usize, room: &'t mut Text) -> io::Result<Option<&'t [u8]>>
        ensures { IfOk result (λ found. IfSome found (λ text. (0 < length text.now) × (length text.now < ROOM))) }
    {
        if !files::has_arg(self.rt, 2) {
            println!(self.stderr;
                "owl: a file is missing behind the command; 'owl help' says what each takes"
            )?;
            return Ok(None);
        }
        if files::has_arg(self.rt, most) {
            print!(self.stderr; "owl: '")?;
            self.complain_arg(most)?;
            println!(self.stderr; "': a word too many; 'owl help' says what each command takes")?;
            return Ok(None);
        }
        self.load(2, room)
    }
}
