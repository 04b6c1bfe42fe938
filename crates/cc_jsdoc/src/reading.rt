// How far a type is read.

ghost use Rattle.std.specs.Prelude.{◌≡◌, ◌++◌, ◌∷◌, [], IfOk, OnOk};

use crate::types::Alternative;
use std::alloc::AllocError;

/// What is open: a union in parentheses, the element type of an array, the type behind `...`, or
/// the result of a function. All but a union know how many alternatives stand before them.
#[derive(Clone, Copy)]
pub(crate) enum Open {
    Union,
    Element(usize),
    Variadic(usize),
    Result(usize),
}

/// What comes next: a type is due, a type ends, all is read, or the text is no type.
#[derive(Clone, Copy)]
pub(crate) enum Step<'a> {
    Due(&'a str),
    Done(&'a str),
    Whole,
    Outside,
}

/// What is open, the innermost last, and the alternatives so far.
#[derive(Drop)]
pub(crate) struct Reading {
    pub(crate) stack: Vec<Open>,
    pub(crate) alternatives: Vec<Alternative>,
}

/// An alternative, behind which the type ends.
pub(crate) fn done<'a>(
    reading: &mut Reading,
    alternative: Alternative,
    rest: &'a str,
) -> Result<Step<'a>, AllocError>
    ensures step { IfOk result (λ step. step ≡ Step.Done rest.entry) }
    ensures stack { OnOk result (reading.new.stack.items ≡ reading.old.stack.items) }
    ensures alternatives { OnOk result (reading.new.alternatives.items ≡ reading.old.alternatives.items ++ alternative ∷ []) }
{
    reading.alternatives.push(alternative)?;
    Ok(Step::Done(rest))
}

/// What begins here, behind which a type is due.
pub(crate) fn opened<'a>(
    reading: &mut Reading,
    open: Open,
    rest: &'a str,
) -> Result<Step<'a>, AllocError>
    ensures step { IfOk result (λ step. step ≡ Step.Due rest.entry) }
    ensures stack { OnOk result (reading.new.stack.items ≡ reading.old.stack.items ++ «open» ∷ []) }
    ensures alternatives { OnOk result (reading.new.alternatives.items ≡ reading.old.alternatives.items) }
{
    reading.stack.push(open)?;
    Ok(Step::Due(rest))
}
