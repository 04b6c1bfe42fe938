// Whole lists of tokens.

ghost use Rattle.std.specs.Prelude.{◌≡◌, IfOk, IfErr};
ghost use Rattle.cc_stmt.specs.ReadList as spec;
ghost use Rattle.cc_stmt.specs.ReadList.{IsLexed, IsRead, IsRefused};

use crate::knot::program;
use cc_ast::reading::{LimitKind, Refusal};
use cc_cursor::cursor::Cursor;
use cc_cursor::error::{Cause, ReadError};
use cc_cursor::limits::Limits;
use cc_grammar::laws;
use cc_lexer::token::Tokens;
use cc_raw::tree::RawStmt;
use sqlite_items::Items;
use std::alloc::Global;

/// How high a tree may be.
const DEPTH: u16 = 256;

/// The statements that the tokens of a text derive with justified insertions of semicolons, of a
/// height of at most 256, or the first fault: a construct that is refused, a token that goes on with
/// no program, or one where the tree is too high.
pub fn read_list(alloc: Global, tokens: &Tokens<'_>) -> Result<Items<RawStmt>, Refusal>
    requires { IsLexed tokens.now }
    ensures read { IfOk result (λ b. IsRead (spec.tokens tokens.now) b) }
    ensures refused { IfErr result (λ e. IsRefused (spec.tokens tokens.now) e) }
{
    laws::a_text_has_tokens();
    laws::reading_ends();
    laws::reading_is_sound();
    laws::trees_are_small();
    laws::faults_are_first();
    laws::derived_lists_have_no_fault();
    let turns = tokens.list.len() + 2;
    let limits = Limits {
        turns,
        depth: DEPTH,
    };
    let mut cursor = Cursor::new(tokens);
    let fault = match program(alloc, &mut cursor, limits) {
        Ok((found, _)) => return Ok(found),
        Err(ReadError::Memory) => return Err(Refusal::Memory),
        Err(ReadError::Fault(fault)) => fault,
    };
    let place = fault.place;
    match fault.cause {
        Cause::Syntax => Err(Refusal::Syntax { place }),
        Cause::Refused(kind) => Err(Refusal::Refused { kind, place }),
        Cause::Depth => Err(Refusal::Limit {
            kind: LimitKind::Depth,
            place,
        }),
        Cause::Spent => unreachable!(),
    }
}
