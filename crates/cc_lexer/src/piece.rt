// Pieces of the source.

ghost use Rattle.std.specs.Prelude.{◌≡◌, IfOk};
ghost use Rattle.std.specs.Str.{bytes_eq, chars};
ghost use Rattle.cc_text.specs.Utf16.{utf16};

use cc_ast::units::Units;
use cc_text::units_of;
use std::alloc::{AllocError, Global};
use std::marker::Model;

/// A piece of the source, which contracts see as its UTF-16 units.
#[derive(Drop)]
pub struct Piece<'a> {
    text: &'a str,
}

impl<'a> Model for Piece<'a> {
    ghost use Rattle.std.specs.Prelude.{List, ℕ};
    ghost use Rattle.std.specs.Str.{chars};
    ghost use Rattle.cc_text.specs.Utf16.{utf16};

    ghost Value = { List ℕ };

    ghost view = { λ p. utf16 (chars p.text.now) };
}

impl<'a> Piece<'a> {
    /// The whole text.
    pub fn new(text: &'a str) -> Piece<'a>
        ensures { result ≡ utf16 (chars text.now) }
    {
        Piece { text }
    }

    /// Its text.
    pub fn text(&self) -> &'a str
        ensures { utf16 (chars result.now) ≡ self.now }
    {
        self.text
    }

    /// Its units.
    pub fn units(&self, alloc: Global) -> Result<Units, AllocError>
        ensures { IfOk result (λ units. units ≡ self.now) }
    {
        units_of(alloc, self.text())
    }

    /// Whether this is its text.
    pub fn is(&self, text: &str) -> bool
        ensures { result ≡ bytes_eq (utf16 (chars text.now)) self.now }
    {
        text == self.text()
    }
}
