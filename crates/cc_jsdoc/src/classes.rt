// Classes of characters.

ghost use Rattle.std.specs.Prelude.{◌≡◌};
ghost use Rattle.cc_lexer.specs.Characters as characters;
ghost use Rattle.cc_jsdoc.specs.Classes.{is_in};

use cc_text::is_line_end;

/// A class of characters. `Blank` has white space and line ends, `Inline` all but line ends, and
/// `Part` what a name may go on with.
#[derive(Clone, Copy)]
pub(crate) enum Class {
    White,
    Blank,
    Inline,
    Star,
    Part,
    Letter,
}

fn is_white(c: char) -> bool
    ensures { result ≡ characters.is_white c }
{
    matches!(
        c,
        '\t' | '\u{B}'
            | '\u{C}'
            | ' '
            | '\u{A0}'
            | '\u{FEFF}'
            | '\u{1680}'
            | '\u{2000}'..='\u{200A}' | '\u{202F}' | '\u{205F}' | '\u{3000}'
    )
}

/// Whether a name may begin with the character.
pub(crate) fn is_start(c: char) -> bool
    ensures { result ≡ characters.is_start c }
{
    matches!(c, '$' | '_') || unicode_ident::is_xid_start(c)
}

fn is_part(c: char) -> bool
    ensures { result ≡ characters.is_part c }
{
    matches!(c, '$' | '_' | '\u{200C}' | '\u{200D}') || unicode_ident::is_xid_continue(c)
}

pub(crate) fn contains(class: Class, c: char) -> bool
    ensures { result ≡ is_in class c }
{
    match class {
        Class::White => is_white(c),
        Class::Blank => is_white(c) || is_line_end(c),
        Class::Inline => !is_line_end(c),
        Class::Star => c == '*',
        Class::Part => is_part(c),
        Class::Letter => c.is_ascii_alphabetic(),
    }
}
