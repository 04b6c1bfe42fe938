// Whole types.

ghost use Rattle.std.specs.Prelude.{◌≡◌, ◌∷◌, [], IfOk};
ghost use Rattle.std.specs.Str.{chars};
ghost use Rattle.cc_jsdoc.specs.Types as types;

use crate::begin::begin;
use crate::go_on::go_on;
use crate::reading::{Reading, Step};
use crate::types::{Alternative, TypeExpr};
use sqlite_items::Items;
use std::alloc::{AllocError, Global};

/// The type of one alternative.
pub(crate) fn type_of_one(alloc: Global, alternative: Alternative) -> Result<TypeExpr, AllocError>
    ensures { IfOk result (λ e. e ≡ record { alternatives = alternative ∷ [] }) }
{
    let mut alternatives = Items::new(alloc);
    alternatives.push(alternative)?;
    Ok(TypeExpr { alternatives })
}

/// What a text means as a type. One outside the grammar is unknown.
pub(crate) fn type_of(alloc: Global, text: &str) -> Result<TypeExpr, AllocError>
    ensures { IfOk result (types.Means (chars text.now)) }
{
    let mut reading = Reading {
        stack: Vec::new(alloc),
        alternatives: Vec::new(alloc),
    };
    let mut step = Step::Due(text);
    loop {
        step = match step {
            Step::Due(rest) => begin(alloc, &mut reading, rest)?,
            Step::Done(rest) => go_on(alloc, &mut reading, rest)?,
            Step::Whole => break,
            Step::Outside => return type_of_one(alloc, Alternative::Unknown),
        };
    }
    let Reading {
        stack: _,
        alternatives,
    } = reading;
    Ok(TypeExpr {
        alternatives: Items::from_vec(alternatives),
    })
}
