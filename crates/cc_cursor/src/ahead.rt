// The operand of a `delete`, ahead: whether it is a variable, perhaps in parentheses.

ghost use Rattle.std.specs.Prelude.{◌≡◌, IfOk, Ok};
ghost use Rattle.cc_grammar.specs.Reading as reading;
ghost use Rattle.cc_cursor.specs.Shown as shown;
ghost use Rattle.cc_cursor.specs.Reads as spec;
ghost use Rattle.cc_cursor.specs.Reads.{Reads, same};

use crate::cursor::Cursor;
use crate::error::{Cause, Fault, ReadError};
use crate::lexeme::{Lexeme, is_mark};
use crate::names::variable_of;
use crate::signs::step_of;
use cc_ast::reading::Construct;
use cc_lexer::token::Mark;

/// Whether a token goes on with the operand of a unary operator.
fn goes_on(lexeme: Lexeme<'_>) -> bool
    ensures { result ≡ reading.goes_on (shown.lexeme lexeme.entry) }
{
    is_mark(lexeme.kind, Mark::Dot)
        || is_mark(lexeme.kind, Mark::OpenBracket)
        || is_mark(lexeme.kind, Mark::OpenParen)
        || (step_of(lexeme.kind).is_some() && !lexeme.after_line)
}

/// Whether so many parentheses close, and no token goes on behind them.
fn closed(cursor: &mut Cursor<'_>, count: usize) -> bool
    ensures { spec.closed count cursor.old ≡ Ok (result, cursor.new) }
{
    for _turn in 0..count {
        if !cursor.sees(Mark::CloseParen) {
            return false;
        }
        cursor.take();
    }
    !goes_on(cursor.peek())
}

/// Whether a variable, perhaps in parentheses, is the whole operand that comes next.
fn opened(cursor: &mut Cursor<'_>, turns: usize) -> Result<bool, ReadError>
    ensures { Reads same (spec.opened turns 0 cursor.old) result cursor.new }
{
    for count in 0..turns {
        if !cursor.sees(Mark::OpenParen) {
            if variable_of(cursor.kind()).is_none() {
                return Ok(false);
            }
            cursor.take();
            return Ok(closed(cursor, count));
        }
        cursor.take();
    }
    Err(ReadError::Fault(cursor.stop(Cause::Spent)))
}

/// Refuses a `delete` of a variable, which stands there. The cursor stays, where it isn't refused.
pub fn keep_variables(cursor: &mut Cursor<'_>, turns: usize) -> Result<(), ReadError>
    ensures reads { Reads same (spec.unless_deleted turns cursor.old (Ok (tt, cursor.old))) result cursor.new }
    ensures stays { IfOk result (λ _. cursor.new ≡ cursor.old) }
{
    let mut ahead = cursor.copy();
    let place = ahead.take();
    let deleted = opened(&mut ahead, turns);
    match deleted {
        Ok(false) => Ok(()),
        Ok(true) => {
            *cursor = ahead;
            let cause = Cause::Refused(Construct::DeleteName);
            Err(ReadError::Fault(Fault { cause, place }))
        }
        Err(error) => {
            *cursor = ahead;
            Err(error)
        }
    }
}
