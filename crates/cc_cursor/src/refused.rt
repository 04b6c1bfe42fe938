// What a token refuses.

ghost use Rattle.std.specs.Prelude.{◌≡◌};
ghost use Rattle.cc_grammar.specs.Signs as signs;
ghost use Rattle.cc_grammar.specs.Reading as reading;
ghost use Rattle.cc_cursor.specs.Shown as shown;

use crate::error::{Cause, Fault};
use crate::lexeme::{Kind, Lexeme};
use cc_ast::reading::Construct;
use cc_lexer::piece::Piece;
use cc_lexer::token::Mark;
use cc_lexer::word::Word;

/// What is due where a token doesn't go on.
#[derive(Clone, Copy)]
pub enum Due {
    Token,
    Variable,
    Operand,
}

/// What a name refuses that no variable has.
#[tactic(auto, using(crate::proofs::NameLemmas::name_steps, std::proofs::lemmas::Grind::common_steps))]
pub fn refused_name(name: &Piece<'_>) -> Option<Construct>
    ensures { result ≡ signs.refused_name name.now }
{
    if name.is("eval") {
        Some(Construct::EvalName)
    } else if name.is("arguments") {
        Some(Construct::ArgumentsName)
    } else {
        None
    }
}

fn refused_word(word: Word) -> Option<Construct>
    ensures { result ≡ signs.refused_word word }
{
    match word {
        Word::With => Some(Construct::With),
        Word::Debugger => Some(Construct::Debugger),
        Word::Class
        | Word::Const
        | Word::Enum
        | Word::Export
        | Word::Extends
        | Word::Import
        | Word::Super => Some(Construct::LaterWord),
        _ => None,
    }
}

fn refused_kind(kind: Kind<'_>) -> Option<Construct>
    ensures { result ≡ signs.refused_kind (shown.kind kind.entry) }
{
    match kind {
        Kind::Stop(construct) => construct,
        Kind::Word(word) => refused_word(word),
        _ => None,
    }
}

fn is_slash(kind: Kind<'_>) -> bool
    ensures { result ≡ signs.is_slash (shown.kind kind.entry) }
{
    match kind {
        Kind::Mark(mark) => matches!(mark, Mark::Slash | Mark::SlashEqual),
        _ => false,
    }
}

fn refused_operand(kind: Kind<'_>) -> Option<Construct>
    ensures { result ≡ reading.refused_there reading.an_operand (shown.kind kind.entry) }
{
    match kind {
        Kind::Name(name) => refused_name(name),
        _ => if is_slash(kind) {
            Some(Construct::RegExp)
        } else {
            None
        },
    }
}

fn refused_there(due: Due, kind: Kind<'_>) -> Option<Construct>
    ensures { result ≡ reading.refused_there (shown.due due) (shown.kind kind.entry) }
{
    match (due, kind) {
        (Due::Variable, Kind::Name(name)) => refused_name(name),
        (Due::Operand, _) => refused_operand(kind),
        _ => None,
    }
}

fn cause(itself: Option<Construct>, there: Option<Construct>) -> Cause
    ensures { shown.cause result ≡ reading.either itself there }
{
    match itself.or(there) {
        Some(construct) => Cause::Refused(construct),
        None => Cause::Syntax,
    }
}

/// What is wrong at a token, where something else is due.
pub fn fault(due: Due, lexeme: Lexeme<'_>) -> Fault
    ensures { shown.fault result ≡ reading.fault (shown.due due) (shown.lexeme lexeme.entry) }
{
    let there = refused_there(due, lexeme.kind);
    Fault {
        cause: cause(refused_kind(lexeme.kind), there),
        place: lexeme.place,
    }
}
