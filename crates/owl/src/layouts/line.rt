// A line of a text of layouts.
use crate::layouts::fault::{Fault, Flaw};
use crate::layouts::item::Item;

#[derive(Clone, Copy)]
pub struct Line<'a> {
    // Counted from 1.
    pub number: usize,
    pub content: &'a [u8],
}

impl<'a> Line<'a> {
    pub fn new(number: usize, whole_line: &'a [u8]) -> Self {
        Line {
            number,
            content: blanks::content(whole_line),
        }
    }

    pub fn words(self) -> usize {
        blanks::words(self.content)
    }

    pub fn word(self, k: usize) -> &'a [u8] {
        blanks::word(self.content, k)
    }

    pub fn item(self) -> Option<Item> {
        Item::from_word(self.word(0))
    }

    pub fn flaw(self, word: usize, fault: Fault) -> Flaw<'a> {
        Flaw {
            line: self,
            word,
            fault,
        }
    }

    // Whether the line has so many words.
    pub fn has_words(self, expected: usize, item: Item) -> Result<(), Flaw<'a>> {
        let n = self.words();
        if n < expected {
            return Err(self.flaw(n, Fault::TooFew(item)));
        }
        if expected < n {
            return Err(self.flaw(expected, Fault::TooMany(item)));
        }
        Ok(())
    }

    // Word 1, if it is short enough for a name.
    pub fn name(self) -> Result<&'a [u8], Flaw<'a>> {
        let name = self.word(1);
        if limits::MAX_NAME < name.len() {
            return Err(self.flaw(1, Fault::LongName));
        }
        Ok(name)
    }

    // Word k, if it is a number of two bytes.
    pub fn number_at(self, k: usize) -> Result<u16, Flaw<'a>> {
        caseline::number(self.word(k))
            .and_then(|n| u16::try_from(n).ok())
            .ok_or(self.flaw(k, Fault::NoNumber))
    }

    // The one word behind the item, if it is a number of two bytes.
    pub fn only_number(self) -> Result<u16, Flaw<'a>> {
        if self.words() != 2 {
            return Err(self.flaw(1, Fault::NoNumber));
        }
        self.number_at(1)
    }
}
