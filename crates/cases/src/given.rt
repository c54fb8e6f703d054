// What a line gives, word by word, once its shape is known to be right.
ghost use Rattle.std.specs.Prelude.{◌≡◌, ◌/◌, ◌≤◌, length, min};

use caseline::input;
use field::Holder;

const TAB: u8 = b'\t';

// The most bytes that the words of a line name.
pub const DECODED_SIZE: usize = input::ROOM_SIZE / 2;

// Bytes that are kept from line to line.
#[derive(Clone, Copy)]
pub struct Bytes<const N: usize> {
    room: [u8; N],
    length: usize,
    ghost inside: { length ≤ N },
}

impl<const N: usize> Bytes<N> {
    pub fn new() -> Self {
        Bytes {
            room: [0; N],
            length: 0,
        }
    }

    // Takes these in place of those it has: as many as there is room for.
    pub fn keep(&mut self, bytes: &[u8]) {
        let length = bytes.len().min(N);
        self.room[..length].copy_from_slice(&bytes[..length]);
        self.length = length;
    }

    pub fn as_slice(&self) -> &[u8]
        ensures { length result.now ≤ N }
    {
        &self.room[..self.length]
    }
}

// A line, and the bytes of its words once they are decoded: each word's at half of its place in the line, so that no two
// meet.
#[derive(Clone, Copy)]
pub struct Line<'a> {
    pub text: &'a [u8],
    pub decoded: &'a [u8],
}

impl<'a> Line<'a> {
    pub fn word(self, k: usize) -> &'a [u8] {
        caseline::word(self.text, k)
    }

    // Where word k starts.
    fn place(self, k: usize) -> usize {
        let words = self.text.split(|b| *b == TAB);
        words.take(k).fold(0, |at: usize, word| {
            at.saturating_add(word.len()).saturating_add(1)
        })
    }

    // Decodes a word into the room for a line's bytes, and tells whether it is in hex.
    pub fn decode(self, k: usize, room: &mut [u8]) -> bool {
        let Some(rest) = room.get_mut(self.place(k) / 2..) else {
            return false;
        };
        caseline::hex(self.word(k), rest).is_some()
    }

    // The bytes of a word in hex.
    pub fn bytes(self, k: usize) -> &'a [u8] {
        lent::part(self.decoded, self.place(k) / 2, self.word(k).len() / 2)
    }

    pub fn number(self, k: usize) -> usize {
        caseline::number(self.word(k)).unwrap_or(0)
    }

    // A number of two bytes.
    pub fn short(self, k: usize) -> u16 {
        u16::try_from(self.number(k)).unwrap_or(0)
    }

    // None is wanted where a dash stands.
    pub fn schema(self, k: usize) -> Option<u16> {
        match self.word(k) {
            b"-" => None,
            _ => Some(self.short(k)),
        }
    }

    // What a cursor may begin.
    pub fn holder(self, k: usize) -> Option<Holder> {
        match self.word(k) {
            b"record" => Some(Holder::Record),
            b"struct" => Some(Holder::Struct),
            _ => None,
        }
    }
}

// The most ids that a call is given.
pub const MOST_IDS: usize = 64;

// Puts the ids of two bytes each at the start: as many as the bytes have, and as there is room for.
pub fn ids<'a>(bytes: &[u8], room: &'a mut [u16]) -> &'a [u16]
    ensures { length result.now ≡ min (length room.old) (length bytes.now / 2) }
{
    let n = room.len().min(bytes.len() / 2);
    for (id, pair) in room.iter_mut().zip(bytes.chunks_exact(2)) {
        *id = u16::from_le_bytes([pair[0], pair[1]]);
    }
    &room[..n]
}

// Copies bytes to a place where they fit.
pub fn store(bytes: &[u8], room: &mut [u8], at: usize) -> Option<()> {
    let end = at.checked_add(bytes.len())?;
    room.get_mut(at..end)?.copy_from_slice(bytes);
    Some(())
}
