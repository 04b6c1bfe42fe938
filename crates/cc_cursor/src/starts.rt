// What begins a statement.

ghost use Rattle.std.specs.Prelude.{◌≡◌};
ghost use Rattle.cc_grammar.specs.Reading as reading;
ghost use Rattle.cc_grammar.specs.Symbols as symbols;
ghost use Rattle.cc_cursor.specs.Shown as shown;
ghost use Rattle.cc_cursor.specs.ShownStarts as starts;

use crate::lexeme::Kind;
use cc_lexer::piece::Piece;
use cc_lexer::token::Mark;
use cc_lexer::word::Word;

/// What begins a statement. `Plain` is an expression that begins with no name.
#[derive(Clone, Copy)]
pub enum Start<'a> {
    Block,
    Vars,
    Empty,
    If,
    Do,
    While,
    For,
    Continue,
    Break,
    Return,
    Switch,
    Throw,
    Try,
    Function,
    Name(&'a Piece<'a>),
    Plain,
}

fn start_of_word<'a>(word: Word) -> Start<'a>
    ensures { starts.shown result ≡ reading.start_of (symbols.word word) }
{
    match word {
        Word::Var => Start::Vars,
        Word::If => Start::If,
        Word::Do => Start::Do,
        Word::While => Start::While,
        Word::For => Start::For,
        Word::Continue => Start::Continue,
        Word::Break => Start::Break,
        Word::Return => Start::Return,
        Word::Switch => Start::Switch,
        Word::Throw => Start::Throw,
        Word::Try => Start::Try,
        Word::Function => Start::Function,
        _ => Start::Plain,
    }
}

fn start_of_mark<'a>(mark: Mark) -> Start<'a>
    ensures { starts.shown result ≡ reading.start_of (symbols.mark mark) }
{
    match mark {
        Mark::OpenBrace => Start::Block,
        Mark::Semicolon => Start::Empty,
        _ => Start::Plain,
    }
}

/// What a token begins, where a statement begins with it.
pub fn start_of<'a>(kind: Kind<'a>) -> Start<'a>
    ensures { starts.shown result ≡ reading.start_of (shown.kind kind.entry) }
{
    match kind {
        Kind::Word(word) => start_of_word(word),
        Kind::Mark(mark) => start_of_mark(mark),
        Kind::Name(name) => Start::Name(name),
        _ => Start::Plain,
    }
}
