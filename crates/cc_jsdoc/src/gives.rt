// What a tag gives.

ghost use Rattle.std.specs.Prelude.{◌≡◌, ◌∷◌, [], ℕ, List, Option, Some, None, IfOk, IfSome, MatchOption, unwrap_or};
ghost use Rattle.std.specs.Str.{chars, IsUtf8};
ghost use Rattle.cc_text.specs.Utf16.{utf16};
ghost use Rattle.cc_text.specs.Characters.{first_is};
ghost use Rattle.cc_jsdoc.specs.Classes.{is_blank};
ghost use Rattle.cc_jsdoc.specs.declared.types.TypeExpr.{TypeExpr};
ghost use Rattle.cc_jsdoc.specs.Tags as tags;

use crate::classes::{Class, contains};
use crate::doc::Param;
use crate::expression::{type_of, type_of_one};
use crate::name::{class_name, next_word};
use crate::span::split;
use crate::symbol::{behind_mark, close};
use crate::tag::{Tag, TagName};
use crate::types::{Alternative, Name, Simple, TypeExpr};
use cc_text::{split_first, units_of};
use std::alloc::{AllocError, Global};

// The tag that a name is.
fn tag_name(letters: &str) -> TagName
    ensures { result ≡ tags.tag_name (chars letters.now) }
{
    match letters {
        "constructor" => TagName::Constructor,
        "interface" => TagName::Interface,
        "enum" => TagName::Enum,
        "typedef" => TagName::Typedef,
        "extends" => TagName::Extends,
        "implements" => TagName::Implements,
        "param" => TagName::Param,
        "return" => TagName::Return,
        "type" => TagName::Type,
        "this" => TagName::This,
        "const" => TagName::Const,
        "define" => TagName::Define,
        "export" => TagName::Export,
        "nocollapse" => TagName::NoCollapse,
        "license" | "preserve" => TagName::Licence,
        _ => TagName::Other,
    }
}

// What stands in the braces that a text begins with, and what is behind them.
fn braced(text: &str) -> Option<(&str, &str)>
    ensures value { MatchOption result ((inside rest : List ℕ) → ¬ tags.Braced (chars text.now) inside rest)
        (λ r. tags.Braced (chars text.now) (chars r.0.now) (chars r.1.now)) }
    ensures inside_text { IfSome result (λ r. IsUtf8 r.0.now) }
    ensures rest_text { IfSome result (λ r. IsUtf8 r.1.now) }
{
    match behind_mark(text, '{') {
        Some(inside) => close(inside, '{', '}'),
        None => None,
    }
}

// The type of a tag by the text behind its name, and what is behind it.
fn split_type(alloc: Global, text: &str) -> Result<(Option<TypeExpr>, &str), AllocError>
    ensures value { IfOk result (λ r. tags.TypeOf (chars text.now) r.0 (chars r.1.now)) }
    ensures rest_text { IfOk result (λ r. IsUtf8 r.1.now) }
{
    match braced(text) {
        Some((inside, rest)) => Ok((Some(type_of(alloc, inside)?), rest)),
        None => Ok((None, text)),
    }
}

// The type, and where there is none that of one alternative.
fn type_or(
    alloc: Global,
    expr: Option<TypeExpr>,
    other: Alternative,
) -> Result<TypeExpr, AllocError>
    ensures { IfOk result (λ e. e ≡ unwrap_or expr (record { alternatives = other ∷ [] })) }
{
    match expr {
        Some(expr) => Ok(expr),
        None => type_of_one(alloc, other),
    }
}

// The type of a tag.
fn own_type(alloc: Global, text: &str) -> Result<Option<TypeExpr>, AllocError>
    ensures { IfOk result (λ e. (rest : List ℕ) × tags.TypeOf (chars text.now) e rest) }
{
    let (expr, _) = split_type(alloc, text)?;
    Ok(expr)
}

// The type of a tag, where it is the name of a class.
fn own_class(alloc: Global, text: &str) -> Result<Option<Name>, AllocError>
    ensures { IfOk result (tags.ClassOf (chars text.now)) }
{
    match braced(text) {
        Some((inside, _)) => class_name(alloc, inside),
        None => Ok(None),
    }
}

fn begins_with_blank(text: &str) -> bool
    ensures { result ≡ first_is is_blank (chars text.now) }
{
    match split_first(text) {
        Some((c, _)) => contains(Class::Blank, c),
        None => false,
    }
}

// A name that comes next behind white space.
fn spaced_name(text: &str) -> Option<&str>
    ensures value { MatchOption result ((w : List ℕ) → ¬ tags.NextName (chars text.now) w)
        (λ name. tags.NextName (chars text.now) (chars name.now)) }
    ensures name_text { IfSome result (λ name. IsUtf8 name.now) }
{
    if !begins_with_blank(text) {
        return None;
    }
    match next_word(text) {
        Some((name, _)) => Some(name),
        None => None,
    }
}

fn own_param(alloc: Global, text: &str) -> Result<Option<Param>, AllocError>
    ensures { IfOk result (tags.ParamOf (chars text.now)) }
{
    let (expr, rest) = split_type(alloc, text)?;
    let Some(name) = spaced_name(rest) else {
        return Ok(None);
    };
    let expr = type_or(alloc, expr, Alternative::Unknown)?;
    let name = units_of(alloc, name)?;
    Ok(Some(Param { name, expr }))
}

/// What a tag gives, by its own text; nothing, where it lacks what it gives or is another one.
pub(crate) fn given_by(alloc: Global, own: &str) -> Result<Option<Tag>, AllocError>
    ensures { IfOk result (tags.IsTag (chars own.now)) }
{
    let (letters, text) = split(own, Class::Letter);
    let given = match tag_name(letters) {
        TagName::Constructor => Some(Tag::Constructor),
        TagName::Interface => Some(Tag::Interface),
        TagName::Enum => {
            let expr = own_type(alloc, text)?;
            Some(Tag::Enum(type_or(alloc, expr, Alternative::Simple(Simple::Number))?))
        }
        TagName::Typedef => own_type(alloc, text)?.map(Tag::Typedef),
        TagName::Extends => own_class(alloc, text)?.map(Tag::Extends),
        TagName::Implements => own_class(alloc, text)?.map(Tag::Implements),
        TagName::Param => own_param(alloc, text)?.map(Tag::Param),
        TagName::Return => own_type(alloc, text)?.map(Tag::Return),
        TagName::Type => own_type(alloc, text)?.map(Tag::Type),
        TagName::This => own_type(alloc, text)?.map(Tag::This),
        TagName::Const => Some(Tag::Const(own_type(alloc, text)?)),
        TagName::Define => Some(Tag::Define(own_type(alloc, text)?)),
        TagName::Export => Some(Tag::Export),
        TagName::NoCollapse => Some(Tag::NoCollapse),
        TagName::Licence => Some(Tag::Licence),
        TagName::Other => None,
    };
    Ok(given)
}
