// Strings.

ghost use Rattle.std.specs.Prelude.{◌≡◌, ◌∷◌, IfOk, IsTrue};
ghost use Rattle.std.specs.Str.{chars};
ghost use Rattle.cc_lexer.specs.Characters.{is_quote};
ghost use Rattle.cc_lexer.specs.Items as items;
ghost use Rattle.cc_lexer.specs.Strings as strings;

use crate::item::Item;
use crate::token::{Fault, TokenKind};
use cc_ast::reading::Construct;
use cc_ast::units::Units;
use cc_text::{Behind, escape_behind, is_line_end, push_char, split_first};
use sqlite_items::Boxed;
use std::alloc::{AllocError, Global};

// The text behind an escape, or its fault.
enum Next<'a> {
    Goes(&'a str),
    Fails(Fault),
}

// Adds the units of the escape whose backslash stands before the text.
fn add_escape<'a>(units: &mut Vec<u16>, text: &'a str) -> Result<Next<'a>, AllocError>
    ensures { IfOk result (strings.Escapes (chars text.now) units.old.items units.new.items) }
{
    match escape_behind(text) {
        Behind::Unit(unit, end) => {
            units.push(unit)?;
            Ok(Next::Goes(end))
        }
        Behind::Pair(high, low, end) => {
            units.push(high)?;
            units.push(low)?;
            Ok(Next::Goes(end))
        }
        Behind::Nothing(end) => Ok(Next::Goes(end)),
        Behind::Octal => Ok(Next::Fails(Fault::Refused(Construct::OctalEscape))),
        Behind::Bad => Ok(Next::Fails(Fault::Syntax)),
    }
}

/// The string whose first quote stands before the text.
pub(crate) fn string<'a>(alloc: Global, quote: char, text: &'a str) -> Result<Item<'a>, AllocError>
    requires { IsTrue (is_quote quote) }
    ensures { IfOk result (items.IsString quote (chars text.now)) }
{
    let mut list = Vec::new(alloc);
    let mut rest = text;
    while let Some((c, behind)) = split_first(rest) {
        if c == quote {
            let units = Boxed::new(alloc, Units { list })?;
            return Ok(Item::Token(TokenKind::Text(units), behind));
        }
        if is_line_end(c) {
            return Ok(Item::Nothing(Fault::Syntax));
        }
        if c == '\\' {
            match add_escape(&mut list, behind)? {
                Next::Goes(end) => rest = end,
                Next::Fails(fault) => return Ok(Item::Nothing(fault)),
            }
        } else {
            push_char(&mut list, c)?;
            rest = behind;
        }
    }
    Ok(Item::Nothing(Fault::Syntax))
}
