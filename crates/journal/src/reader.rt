// A reader that keeps a journal's bytes and its place in them. Its methods call `journal::reading::read_line`.

ghost use Rattle.std.specs.Prelude.{◌≡◌};
ghost use Rattle.journal.specs.Reading.{read_line};
ghost use Rattle.journal.specs.Advance.{Advanced};

use crate::{Read, reading};

// A journal's bytes, and the place from which the next line is read.
#[derive(Clone, Copy)]
pub struct Reader<'a> {
    pub bytes: &'a [u8],
    pub at: usize,
}

impl<'a> Reader<'a> {
    // A reader of these bytes at a place, 0 for the whole journal.
    pub fn new(bytes: &'a [u8], at: usize) -> Reader<'a>
        ensures { (result.bytes ≡ bytes.entry) × (result.at ≡ at) }
    {
        Reader { bytes, at }
    }

    // What stands at the reader's place.
    pub fn peek(self) -> Read
        ensures { result ≡ read_line self.entry.bytes.now self.entry.at }
    {
        reading::read_line(self.bytes, self.at)
    }

    // What stands at the reader's place; the reader moves behind a line, and stays at the end and where no line is.
    pub fn next(&mut self) -> Read
        ensures { Advanced self.old result self.new }
    {
        let at = self.at;
        let answer = reading::read_line(self.bytes, at);
        let next = reading::position_after(answer, at);
        self.at = next;
        answer
    }
}

// What stands at a place of a journal: the reader for a caller from C, which keeps bytes and place itself.
pub fn read_at(bytes: &[u8], at: usize) -> Read
    ensures { result ≡ read_line bytes.now at }
{
    Reader::new(bytes, at).peek()
}
