// What a reader answers of what it has read.

ghost use Rattle.std.specs.Prelude.{◌≡◌, Ok, IfOk, MatchResult};
ghost use Rattle.cc_grammar.specs.Reading.{semicolon_token};
ghost use Rattle.cc_cursor.specs.Reads.{Reads, expect};

use cc_cursor::cursor::Cursor;
use cc_cursor::error::ReadError;
use cc_lexer::token::Mark;
use std::alloc::AllocError;

/// A tree that is made, with its height.
pub fn sized<T>(made: Result<T, AllocError>, height: usize) -> Result<(T, usize), ReadError>
    ensures { MatchResult result (λ x. (made ≡ Ok x.0) × (x.1 ≡ height)) (λ e. e ≡ ReadError.Memory) }
{
    Ok((made?, height))
}

/// What stands before this mark, which comes next.
pub fn closed<T: Drop>(cursor: &mut Cursor<'_>, mark: Mark, found: T) -> Result<T, ReadError>
    ensures reads { Reads (λ _. tt) (expect mark cursor.old) result cursor.new }
    ensures same { IfOk result (λ x. x ≡ found) }
{
    cursor.expect(mark)?;
    Ok(found)
}

/// A statement that is made, with its height, behind its semicolon, which comes next or may be
/// inserted.
pub fn ended<T: Drop>(
    cursor: &mut Cursor<'_>,
    made: Result<T, AllocError>,
    height: usize,
) -> Result<(T, usize), ReadError>
    ensures reads { Reads (λ _. tt) (semicolon_token cursor.old) result cursor.new }
    ensures made { IfOk result (λ x. (made ≡ Ok x.0) × (x.1 ≡ height)) }
{
    cursor.semicolon()?;
    sized(made, height)
}
