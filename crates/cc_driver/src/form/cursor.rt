// A cursor over the bytes of a file of the form.

ghost use Rattle.std.specs.Prelude.{◌≡◌, ◌+◌, ◌<◌, ◌≤◌, length, drop, IsTrue, suc};
ghost use Rattle.cc_driver.specs.FormReading.{look, begins, expect, expect_word, read_name, read_text, read_value, read_values, read_arguments, read_declaration, read_call, read_statement, read_function, Reads};

use crate::form::unread::Unread;

/// The most bytes that a file of the form has.
pub(crate) const MOST_BYTES: usize = 16_777_216;

/// The bytes that are left to read, with the offset at which they begin.
#[derive(Drop)]
pub(crate) struct Cursor<'a> {
    at: u32,
    rest: &'a [u8],
    ghost in_range: { at + length rest.now ≤ 16777216 },
}

impl<'a> Cursor<'a> {
    pub(crate) fn new(text: &'a [u8]) -> Cursor<'a>
        requires { length text.now ≤ 16777216 }
        ensures at { result.at ≡ 0 }
        ensures rest { result.rest.now ≡ text.now }
    {
        Cursor { at: 0, rest: text }
    }

    pub(crate) fn at(&self) -> u32
        ensures { result ≡ self.now.at }
    {
        self.at
    }

    pub(crate) fn left(&self) -> usize
        ensures { result ≡ length self.now.rest.now }
    {
        self.rest.len()
    }

    /// The next byte, or 0 at the end.
    pub(crate) fn look(&self) -> u8
        ensures byte { result ≡ look self.now.rest.now }
        ensures some { 0 < result → 0 < length self.now.rest.now }
    {
        match self.rest.first() {
            Some(byte) => *byte,
            None => 0,
        }
    }

    pub(crate) fn advance(&mut self, count: usize)
        requires { count ≤ length self.old.rest.now }
        ensures at { self.new.at ≡ self.old.at + count }
        ensures rest { self.new.rest.now ≡ drop count self.old.rest.now }
    {
        let at = self.at + count as u32;
        let rest = &self.rest[count..];
        *self = Cursor { at, rest };
    }

    /// Passes over a byte.
    #[tactic(auto, unfolding(crate::specs::FormReading::expect))]
    pub(crate) fn byte(&mut self, byte: u8) -> Result<(), Unread>
        requires { 0 < byte }
        ensures { Reads (expect byte self.old.at self.old.rest.now) result self.new.at self.new.rest.now }
    {
        if self.look() == byte {
            self.advance(1);
            Ok(())
        } else {
            Err(Unread::Form)
        }
    }

    pub(crate) fn begins(&self, word: &[u8]) -> bool
        ensures begins { result ≡ begins word.now self.now.rest.now }
        ensures fits { IsTrue result → length word.now ≤ length self.now.rest.now }
    {
        self.rest.starts_with(word)
    }

    /// Passes over a word.
    #[tactic(auto, unfolding(crate::specs::FormReading::expect_word))]
    pub(crate) fn word(&mut self, word: &[u8]) -> Result<(), Unread>
        ensures { Reads (expect_word word.now self.old.at self.old.rest.now) result self.new.at self.new.rest.now }
    {
        if self.begins(word) {
            self.advance(word.len());
            Ok(())
        } else {
            Err(Unread::Form)
        }
    }

    /// The bytes from here on.
    pub(crate) fn rest(&self) -> &'a [u8]
        ensures { result.now ≡ self.now.rest.now }
    {
        self.rest
    }
}
