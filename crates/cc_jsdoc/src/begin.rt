// Where a type is due.

ghost use Rattle.std.specs.Prelude.{◌≡◌, ◌<◌, ◌≤◌, ◌+◌, ◌*◌, ℕ, List, IfOk, IfSome, MatchOption, length, vec_len, codes};
ghost use Rattle.std.specs.Str.{chars, IsUtf8};
ghost use Rattle.cc_jsdoc.specs.Symbols.{Word, Mark, symbol};
ghost use Rattle.cc_jsdoc.specs.Types as types;
ghost use Rattle.cc_jsdoc.specs.Continuing as continuing;

use crate::name::{alternative_of, name};
use crate::reading::{Open, Reading, Step, done, opened};
use crate::symbol::{Symbol, behind_mark, close, next_symbol};
use crate::types::{Alternative, Simple};
use std::alloc::{AllocError, Global};

// Whether a type may end before the text.
fn may_end_before(text: &str) -> bool
    ensures { result ≡ continuing.may_follow (symbol (chars text.now)) }
{
    match next_symbol(text) {
        None => true,
        Some((Symbol::Mark(c), _)) => matches!(c, '=' | ')' | '|' | '>'),
        Some((Symbol::Word(_), _)) => false,
    }
}

// What is behind `function(`, by the word and what is behind that.
fn behind_function<'a>(word: &str, rest: &'a str) -> Option<&'a str>
    ensures value { MatchOption result ((a : List ℕ) → chars word.now ≡ codes "function" → ¬ Mark 40 (chars rest.now) a)
        (λ r. (chars word.now ≡ codes "function") × Mark 40 (chars rest.now) (chars r.now)) }
    ensures rest_text { IfSome result (λ r. IsUtf8 r.now) }
    ensures shorter { IfSome result (λ r. length r.now < length rest.now) }
{
    match word {
        "function" => behind_mark(rest, '('),
        _ => None,
    }
}

// What is behind `Array<` or `Array.<`, by the word and what is behind that.
fn behind_array<'a>(word: &str, rest: &'a str) -> Option<&'a str>
    ensures value { MatchOption result ((text a : List ℕ) → Word (chars word.now) text (chars rest.now) → ¬ types.IsArray text a)
        (λ r. (text : List ℕ) → Word (chars word.now) text (chars rest.now) → types.IsArray text (chars r.now)) }
    ensures rest_text { IfSome result (λ r. IsUtf8 r.now) }
    ensures shorter { IfSome result (λ r. length r.now < length rest.now) }
{
    match word {
        "Array" => match behind_mark(rest, '.') {
            Some(behind) => behind_mark(behind, '<'),
            None => behind_mark(rest, '<'),
        },
        _ => None,
    }
}

// A function, whose opening parenthesis stands before the text.
fn function<'a>(reading: &mut Reading, inside: &'a str) -> Result<Step<'a>, AllocError>
    ensures keeps { IfOk result (λ step. (text a : List ℕ) → Word (codes "function") text a → Mark 40 a (chars inside.now)
        → continuing.Keeps (continuing.AwaitsIn reading.old text) reading.new step) }
    ensures text { IfOk result continuing.IsStepText }
    ensures work { IfOk result (λ step. continuing.work_left step (vec_len reading.new.stack) ≤ 2 + (2 * length inside.now + vec_len reading.old.stack)) }
{
    let Some((_, rest)) = close(inside, '(', ')') else {
        return Ok(Step::Outside);
    };
    let before = reading.alternatives.len();
    match behind_mark(rest, ':') {
        Some(result) => opened(reading, Open::Result(before), result),
        None => done(reading, Alternative::Simple(Simple::Function), rest),
    }
}

// A type behind three dots, of which the first stands before the text.
fn variadic<'a>(reading: &mut Reading, text: &'a str) -> Result<Step<'a>, AllocError>
    ensures keeps { IfOk result (λ step. (whole : List ℕ) → Mark 46 whole (chars text.now)
        → continuing.Keeps (continuing.AwaitsIn reading.old whole) reading.new step) }
    ensures text { IfOk result continuing.IsStepText }
    ensures work { IfOk result (λ step. continuing.work_left step (vec_len reading.new.stack) ≤ 2 + (2 * length text.now + vec_len reading.old.stack)) }
{
    let Some(second) = behind_mark(text, '.') else {
        return Ok(Step::Outside);
    };
    let Some(third) = behind_mark(second, '.') else {
        return Ok(Step::Outside);
    };
    let before = reading.alternatives.len();
    opened(reading, Open::Variadic(before), third)
}

// A record, whose opening brace stands before the text.
fn braced<'a>(reading: &mut Reading, inside: &'a str) -> Result<Step<'a>, AllocError>
    ensures keeps { IfOk result (λ step. (whole : List ℕ) → Mark 123 whole (chars inside.now)
        → continuing.Keeps (continuing.AwaitsIn reading.old whole) reading.new step) }
    ensures text { IfOk result continuing.IsStepText }
    ensures work { IfOk result (λ step. continuing.work_left step (vec_len reading.new.stack) ≤ 2 + (2 * length inside.now + vec_len reading.old.stack)) }
{
    match close(inside, '{', '}') {
        Some((_, rest)) => done(reading, Alternative::Unknown, rest),
        None => Ok(Step::Outside),
    }
}

// A type that begins with a mark, which stands before the rest.
fn begin_mark<'a>(reading: &mut Reading, mark: char, rest: &'a str) -> Result<Step<'a>, AllocError>
    ensures keeps { IfOk result (λ step. (whole : List ℕ) → Mark mark whole (chars rest.now)
        → continuing.Keeps (continuing.AwaitsIn reading.old whole) reading.new step) }
    ensures text { IfOk result continuing.IsStepText }
    ensures work { IfOk result (λ step. continuing.work_left step (vec_len reading.new.stack) ≤ 2 + (2 * length rest.now + vec_len reading.old.stack)) }
{
    match mark {
        '*' => done(reading, Alternative::Unknown, rest),
        '?' => if may_end_before(rest) {
            done(reading, Alternative::Unknown, rest)
        } else {
            Ok(Step::Due(rest))
        },
        '!' => Ok(Step::Due(rest)),
        '(' => opened(reading, Open::Union, rest),
        '.' => variadic(reading, rest),
        '{' => braced(reading, rest),
        _ => Ok(Step::Outside),
    }
}

// A name, of which this is the first word.
fn named<'a>(
    alloc: Global,
    reading: &mut Reading,
    text: &'a str,
    first: &str,
) -> Result<Step<'a>, AllocError>
    requires first { (rest : List ℕ) × Word (chars first.now) (chars text.now) rest }
    requires no_function { (rest : List ℕ) → ¬ types.IsFunction (chars text.now) rest }
    requires no_array { (rest : List ℕ) → ¬ types.IsArray (chars text.now) rest }
    ensures keeps { IfOk result (continuing.Keeps (continuing.AwaitsIn reading.old (chars text.now)) reading.new) }
    ensures text { IfOk result continuing.IsStepText }
    ensures work { IfOk result (λ step. continuing.work_left step (vec_len reading.new.stack) < continuing.work_left (Step.Due text.entry) (vec_len reading.old.stack)) }
{
    match name(alloc, text)? {
        Some((name, rest)) => done(reading, alternative_of(first, name), rest),
        None => Ok(Step::Outside),
    }
}

// A type that begins with a word.
fn begin_word<'a>(
    alloc: Global,
    reading: &mut Reading,
    text: &'a str,
    word: &str,
    rest: &'a str,
) -> Result<Step<'a>, AllocError>
    requires word { Word (chars word.now) (chars text.now) (chars rest.now) }
    requires shorter { length rest.now < length text.now }
    ensures keeps { IfOk result (continuing.Keeps (continuing.AwaitsIn reading.old (chars text.now)) reading.new) }
    ensures text { IfOk result continuing.IsStepText }
    ensures work { IfOk result (λ step. continuing.work_left step (vec_len reading.new.stack) < continuing.work_left (Step.Due text.entry) (vec_len reading.old.stack)) }
{
    if let Some(inside) = behind_function(word, rest) {
        return function(reading, inside);
    }
    if let Some(element) = behind_array(word, rest) {
        let before = reading.alternatives.len();
        return opened(reading, Open::Element(before), element);
    }
    named(alloc, reading, text, word)
}

/// Where a type is due.
pub(crate) fn begin<'a>(
    alloc: Global,
    reading: &mut Reading,
    text: &'a str,
) -> Result<Step<'a>, AllocError>
    ensures keeps { IfOk result (continuing.Keeps (continuing.AwaitsIn reading.old (chars text.now)) reading.new) }
    ensures text { IfOk result continuing.IsStepText }
    ensures work { IfOk result (λ step. continuing.work_left step (vec_len reading.new.stack) < continuing.work_left (Step.Due text.entry) (vec_len reading.old.stack)) }
{
    match next_symbol(text) {
        Some((Symbol::Word(word), rest)) => begin_word(alloc, reading, text, word, rest),
        Some((Symbol::Mark(mark), rest)) => begin_mark(reading, mark, rest),
        None => Ok(Step::Outside),
    }
}
