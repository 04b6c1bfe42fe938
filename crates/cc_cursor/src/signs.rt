// What the tokens of expressions mean.

ghost use Rattle.std.specs.Prelude.{◌≡◌, ◌≤◌, Bool};
ghost use Rattle.std.specs.Option.{option_map};
ghost use Rattle.cc_grammar.specs.Signs as signs;
ghost use Rattle.cc_grammar.specs.Reading as reading;
ghost use Rattle.cc_cursor.specs.Shown as shown;
ghost use Rattle.cc_cursor.specs.Meant as meant;

use crate::lexeme::Kind;
use crate::names::variable_of;
use cc_ast::operator::{BinOp, UnOp};
use cc_ast::units::Units;
use cc_lexer::piece::Piece;
use cc_lexer::token::Mark;
use cc_lexer::word::Word;

/// A primary expression of one token.
#[derive(Clone, Copy)]
pub enum Leaf<'a> {
    This,
    Null,
    Truth(bool),
    Whole(i64),
    Text(&'a Units),
    Variable(&'a Piece<'a>),
}

/// A primary expression with parts, or `new`.
#[derive(Clone, Copy)]
pub enum Nested {
    Paren,
    Array,
    Object,
    Function,
    New,
}

/// A primary expression or `new`.
#[derive(Clone, Copy)]
pub enum Head<'a> {
    Leaf(Leaf<'a>),
    Nested(Nested),
}

/// What goes on with a left-hand-side expression.
#[derive(Clone, Copy)]
pub enum Suffix {
    Dot,
    Bracket,
    Call,
}

/// A unary operator, or a step, which is `++` where the flag is true.
#[derive(Clone, Copy)]
pub enum Prefix {
    Unary(UnOp),
    Step(bool),
}

/// A binary operator.
#[derive(Clone, Copy)]
pub enum Infix {
    Operator(BinOp),
    And,
    Or,
}

#[tactic(auto, unfolding(cc_grammar::specs::ReadingParts::head_of))]
fn head_of_word<'a>(word: Word) -> Option<Head<'a>>
    ensures { meant.head result ≡ reading.head_of (shown.kind (Kind.Word word)) }
{
    match word {
        Word::This => Some(Head::Leaf(Leaf::This)),
        Word::Null => Some(Head::Leaf(Leaf::Null)),
        Word::True => Some(Head::Leaf(Leaf::Truth(true))),
        Word::False => Some(Head::Leaf(Leaf::Truth(false))),
        Word::Function => Some(Head::Nested(Nested::Function)),
        Word::New => Some(Head::Nested(Nested::New)),
        _ => None,
    }
}

#[tactic(auto, unfolding(cc_grammar::specs::ReadingParts::head_of))]
fn head_of_mark<'a>(mark: Mark) -> Option<Head<'a>>
    ensures { meant.head result ≡ reading.head_of (shown.kind (Kind.Mark mark)) }
{
    match mark {
        Mark::OpenParen => Some(Head::Nested(Nested::Paren)),
        Mark::OpenBracket => Some(Head::Nested(Nested::Array)),
        Mark::OpenBrace => Some(Head::Nested(Nested::Object)),
        _ => None,
    }
}

/// The primary expression or `new` that a token begins.
#[tactic(auto, unfolding(cc_grammar::specs::ReadingParts::head_of))]
pub fn head_of<'a>(kind: Kind<'a>) -> Option<Head<'a>>
    ensures { meant.head result ≡ reading.head_of (shown.kind kind.entry) }
{
    match kind {
        Kind::Word(word) => head_of_word(word),
        Kind::Mark(mark) => head_of_mark(mark),
        Kind::Number(number) => Some(Head::Leaf(Leaf::Whole(number))),
        Kind::Text(text) => Some(Head::Leaf(Leaf::Text(text))),
        Kind::Name(_) => match variable_of(kind) {
            Some(name) => Some(Head::Leaf(Leaf::Variable(name))),
            None => None,
        },
        Kind::End | Kind::Stop(_) => None,
    }
}

/// What goes on with a left-hand-side expression, a call only where the flag is true.
pub fn suffix_of(calls: bool, kind: Kind<'_>) -> Option<Suffix>
    ensures { meant.suffix result ≡ reading.suffix_of calls (shown.kind kind.entry) }
{
    match kind {
        Kind::Mark(mark) => match mark {
            Mark::Dot => Some(Suffix::Dot),
            Mark::OpenBracket => Some(Suffix::Bracket),
            Mark::OpenParen if calls => Some(Suffix::Call),
            _ => None,
        },
        _ => None,
    }
}

/// Whether a token is `++`, where it is that or `--`.
pub fn step_of(kind: Kind<'_>) -> Option<bool>
    ensures { result ≡ signs.step_of (shown.kind kind.entry) }
{
    match kind {
        Kind::Mark(Mark::PlusPlus) => Some(true),
        Kind::Mark(Mark::MinusMinus) => Some(false),
        _ => None,
    }
}

/// The unary operator or step that a token begins.
pub fn prefix_of(kind: Kind<'_>) -> Option<Prefix>
    ensures { option_map meant.prefix result ≡ signs.prefix_of (shown.kind kind.entry) }
{
    match kind {
        Kind::Mark(mark) => match mark {
            Mark::PlusPlus => Some(Prefix::Step(true)),
            Mark::MinusMinus => Some(Prefix::Step(false)),
            Mark::Plus => Some(Prefix::Unary(UnOp::Plus)),
            Mark::Minus => Some(Prefix::Unary(UnOp::Minus)),
            Mark::Tilde => Some(Prefix::Unary(UnOp::BitNot)),
            Mark::Bang => Some(Prefix::Unary(UnOp::Not)),
            _ => None,
        },
        Kind::Word(word) => match word {
            Word::Delete => Some(Prefix::Unary(UnOp::Delete)),
            Word::Void => Some(Prefix::Unary(UnOp::Void)),
            Word::Typeof => Some(Prefix::Unary(UnOp::Typeof)),
            _ => None,
        },
        _ => None,
    }
}

fn infix_of_mark(mark: Mark) -> Option<Infix>
    ensures { (with_in : Bool) → option_map meant.binary result ≡ signs.infix_of with_in (shown.kind (Kind.Mark mark)) }
{
    let operator = match mark {
        Mark::BarBar => return Some(Infix::Or),
        Mark::AmpersandAmpersand => return Some(Infix::And),
        Mark::Bar => BinOp::BitOr,
        Mark::Caret => BinOp::BitXor,
        Mark::Ampersand => BinOp::BitAnd,
        Mark::EqualEqual => BinOp::Equal,
        Mark::BangEqual => BinOp::NotEqual,
        Mark::EqualEqualEqual => BinOp::Strict,
        Mark::BangEqualEqual => BinOp::NotStrict,
        Mark::Less => BinOp::Less,
        Mark::Greater => BinOp::Greater,
        Mark::LessEqual => BinOp::LessEq,
        Mark::GreaterEqual => BinOp::GreaterEq,
        Mark::LessLess => BinOp::Shl,
        Mark::GreaterGreater => BinOp::Shr,
        Mark::GreaterGreaterGreater => BinOp::UShr,
        Mark::Plus => BinOp::Add,
        Mark::Minus => BinOp::Sub,
        Mark::Star => BinOp::Mul,
        Mark::Slash => BinOp::Div,
        Mark::Percent => BinOp::Rem,
        _ => return None,
    };
    Some(Infix::Operator(operator))
}

/// The binary operator that a token is. `in` is one only where the flag is true.
pub fn infix_of(with_in: bool, kind: Kind<'_>) -> Option<Infix>
    ensures { option_map meant.binary result ≡ signs.infix_of with_in (shown.kind kind.entry) }
{
    match kind {
        Kind::Mark(mark) => infix_of_mark(mark),
        Kind::Word(Word::Instanceof) => Some(Infix::Operator(BinOp::Instance)),
        Kind::Word(Word::In) if with_in => Some(Infix::Operator(BinOp::Has)),
        _ => None,
    }
}

fn level_of(operator: BinOp) -> u8
    ensures value { result ≡ signs.level_of operator }
    ensures small { result ≤ 12 }
{
    match operator {
        BinOp::BitOr => 5,
        BinOp::BitXor => 6,
        BinOp::BitAnd => 7,
        BinOp::Equal | BinOp::NotEqual | BinOp::Strict | BinOp::NotStrict => 8,
        BinOp::Less
        | BinOp::Greater
        | BinOp::LessEq
        | BinOp::GreaterEq
        | BinOp::Instance
        | BinOp::Has => 9,
        BinOp::Shl | BinOp::Shr | BinOp::UShr => 10,
        BinOp::Add | BinOp::Sub => 11,
        BinOp::Mul | BinOp::Div | BinOp::Rem => 12,
    }
}

/// How tightly a binary operator binds.
pub fn level(operator: Infix) -> u8
    ensures value { result ≡ signs.level (meant.binary operator) }
    ensures small { result ≤ 12 }
{
    match operator {
        Infix::Or => 3,
        Infix::And => 4,
        Infix::Operator(operator) => level_of(operator),
    }
}

/// The assignment that a token is: `=`, which has no operator, or a compound one.
pub fn assign_of(kind: Kind<'_>) -> Option<Option<BinOp>>
    ensures { result ≡ signs.assign_of (shown.kind kind.entry) }
{
    let Kind::Mark(mark) = kind else {
        return None;
    };
    let operator = match mark {
        Mark::Equal => return Some(None),
        Mark::PlusEqual => BinOp::Add,
        Mark::MinusEqual => BinOp::Sub,
        Mark::StarEqual => BinOp::Mul,
        Mark::SlashEqual => BinOp::Div,
        Mark::PercentEqual => BinOp::Rem,
        Mark::LessLessEqual => BinOp::Shl,
        Mark::GreaterGreaterEqual => BinOp::Shr,
        Mark::GreaterGreaterGreaterEqual => BinOp::UShr,
        Mark::AmpersandEqual => BinOp::BitAnd,
        Mark::BarEqual => BinOp::BitOr,
        Mark::CaretEqual => BinOp::BitXor,
        _ => return None,
    };
    Some(Some(operator))
}
