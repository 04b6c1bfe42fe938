// The tokens of a text.

ghost use Rattle.std.specs.Prelude.{◌≡◌, ◌≤◌, length, Err, IfOk, IfErr};
ghost use Rattle.std.specs.Str.{chars, IsUtf8};
ghost use Rattle.std.specs.Str.Lossy.{utf8_valid_len};
ghost use Rattle.cc_lexer.specs.Lexes as lexes;

use crate::begin::begin;
use crate::item::Item;
use crate::place::moved;
use crate::token::{Fault, Token, TokenKind, Tokens};
use cc_ast::place::Place;
use cc_ast::reading::Refusal;
use cc_text::split_first;
use std::alloc::{AllocError, Global};

fn refusal(fault: Fault, place: Place) -> Refusal
    ensures { result ≡ lexes.refused fault place }
{
    match fault {
        Fault::Syntax => Refusal::Syntax { place },
        Fault::Refused(kind) => Refusal::Refused { kind, place },
    }
}

fn tokens_of<'a>(alloc: Global, text: &'a str, file: u32) -> Result<Tokens<'a>, AllocError>
    requires { length text.now ≤ 16777216 }
    ensures { IfOk result (λ t. lexes.Lexed (chars text.now) file t.list.items t.stop) }
{
    let mut list = Vec::new(alloc);
    let mut rest = text;
    let mut place = Place {
        file,
        offset: 0,
        line: 1,
        column: 1,
    };
    let mut after_line = false;
    while let Some((c, behind)) = split_first(rest) {
        match begin(alloc, c, behind, rest) {
            Err(error) => return Err(error),
            Ok(Item::Nothing(fault)) => {
                let stop = Some(refusal(fault, place));
                return Ok(Tokens { list, stop });
            }
            Ok(Item::Blank(line, end)) => {
                after_line |= line;
                place = moved(place, rest, end);
                rest = end;
            }
            Ok(Item::Token(kind, end)) => {
                list.push(Token {
                    kind,
                    place,
                    after_line,
                })?;
                after_line = false;
                place = moved(place, rest, end);
                rest = end;
            }
            Ok(Item::Annotation(piece, line, end)) => {
                let kind = TokenKind::Doc(piece);
                list.push(Token {
                    kind,
                    place,
                    after_line,
                })?;
                after_line |= line;
                place = moved(place, rest, end);
                rest = end;
            }
        }
    }
    let kind = TokenKind::End;
    list.push(Token {
        kind,
        place,
        after_line,
    })?;
    Ok(Tokens { list, stop: None })
}

/// The tokens of a source file, of which this is the number.
pub fn tokens<'a>(alloc: Global, bytes: &'a [u8], file: u32) -> Result<Tokens<'a>, Refusal>
    requires { length bytes.now ≤ 16777216 }
    ensures text { IfOk result (λ _. IsUtf8 bytes.now) }
    ensures lexed { IfOk result (λ t. lexes.Lexed (chars bytes.now) file t.list.items t.stop) }
    ensures not_utf8 { ¬ (IsUtf8 bytes.now) → result ≡ Err (Refusal.NotUtf8 file (utf8_valid_len bytes.now)) }
    ensures memory { IsUtf8 bytes.now → IfErr result (λ e. e ≡ Refusal.Memory) }
{
    match str::from_utf8(bytes) {
        Ok(text) => tokens_of(alloc, text, file).map_err(|_| Refusal::Memory),
        Err(error) => Err(Refusal::NotUtf8 {
            file,
            byte: error.valid_up_to() as u32,
        }),
    }
}
