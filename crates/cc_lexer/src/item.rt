// What a text begins with.

use crate::piece::Piece;
use crate::token::{Fault, TokenKind};

/// White space, a line end or a comment; a token; an annotation comment; or nothing of these. The
/// text is what is behind it, and the flag tells whether a line end stands in it.
pub(crate) enum Item<'a> {
    Blank(bool, &'a str),
    Token(TokenKind<'a>, &'a str),
    Annotation(Piece<'a>, bool, &'a str),
    Nothing(Fault),
}
