//! What annotation comments say: `read_doc` answers the doc that the relation `IsDocOf` of
//! `specs/Docs.antt` gives a comment's units. The tags stand in `specs/Tags.antt`, the grammar of
//! types in `specs/Types.antt`.
#![tactic(auto)]

mod begin;
mod classes;
mod collect;
mod comment;
pub mod doc;
mod expression;
mod gives;
mod go_on;
pub mod laws;
mod name;
mod pieces;
mod reading;
mod span;
mod symbol;
mod tag;
pub mod types;

ghost use Rattle.std.specs.Prelude.{IfOk};
ghost use Rattle.cc_jsdoc.specs.Docs.{IsDocOf};

use crate::collect::doc_of;
use crate::comment::text_of;
use crate::doc::Doc;
use crate::pieces::tags_of;
use cc_ast::units::Units;
use std::alloc::{AllocError, Global};

/// What an annotation comment says, which is given with its `/**` and `*/` (Closure Compiler,
/// "Annotating JavaScript"). Tags that lack what they give, and other tags, say nothing.
pub fn read_doc(alloc: Global, comment: &Units) -> Result<Doc, AllocError>
    ensures { IfOk result (IsDocOf comment.now) }
{
    let text = text_of(alloc, comment)?;
    let tags = tags_of(alloc, text.as_str())?;
    doc_of(alloc, tags)
}
