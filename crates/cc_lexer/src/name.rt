// Names and reserved words.

ghost use Rattle.std.specs.Prelude.{◌≡◌};
ghost use Rattle.std.specs.Str.{chars};
ghost use Rattle.cc_lexer.specs.Items as items;

use crate::piece::Piece;
use crate::token::TokenKind;
use crate::word::word_of;

/// The reserved word that has this text, or a name.
pub(crate) fn word_or_name<'a>(text: &'a str) -> TokenKind<'a>
    ensures { result ≡ items.word_or_name (chars text.now) }
{
    match word_of(text) {
        Some(word) => TokenKind::Word(word),
        None => TokenKind::Name(Piece::new(text)),
    }
}
