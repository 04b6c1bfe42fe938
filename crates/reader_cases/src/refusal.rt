// Places and what is refused there.

use crate::page::Page;
use cc_ast::place::Place;
use cc_ast::reading::{Construct, LimitKind, Refusal};

// The constructs that the language leaves out, in the order of their numbers.
static CONSTRUCTS: [&str; 15] = [
    "RegExp",
    "With",
    "Debugger",
    "Accessor",
    "EvalName",
    "ArgumentsName",
    "BlockFunction",
    "NumberForm",
    "NameEscape",
    "OctalEscape",
    "LaterWord",
    "Hole",
    "DeleteName",
    "BuiltIn",
    "HostWrite",
];

/// A line and a column.
pub(crate) fn push_place(page: &mut Page, place: Place) {
    page.number(i64::from(place.line));
    page.put(":");
    page.number(i64::from(place.column));
}

/// The same with the offset in bytes.
pub(crate) fn push_spot(page: &mut Page, place: Place) {
    push_place(page, place);
    page.put("+");
    page.number(i64::from(place.offset));
}

pub(crate) fn push_construct(page: &mut Page, construct: Construct) {
    page.put("refused ");
    page.put(CONSTRUCTS[construct as usize]);
}

/// Why something is refused, without the place.
pub(crate) fn push_cause(page: &mut Page, refusal: &Refusal) {
    match refusal {
        Refusal::Syntax { place: _ } => page.put("syntax"),
        Refusal::Refused { kind, place: _ } => push_construct(page, *kind),
        Refusal::Limit {
            kind: LimitKind::Depth,
            place: _,
        } => page.put("depth"),
        Refusal::NotUtf8 { file, byte } => {
            page.put("not utf-8 at ");
            page.number(i64::from(*byte));
            page.put(" of file ");
            page.number(i64::from(*file));
        }
        Refusal::Memory => page.put("memory"),
        _ => page.put("another"),
    }
}

/// The place of what is refused, if it has one.
pub(crate) fn place_of(refusal: &Refusal) -> Option<Place> {
    match refusal {
        Refusal::Syntax { place }
        | Refusal::Refused { kind: _, place }
        | Refusal::Limit { kind: _, place } => Some(*place),
        _ => None,
    }
}

/// Why something is refused, with the line and the column.
pub(crate) fn push_refusal(page: &mut Page, refusal: &Refusal) {
    push_cause(page, refusal);
    if let Some(place) = place_of(refusal) {
        page.put(" ");
        push_place(page, place);
    }
}

/// The same with the offset in bytes.
pub(crate) fn push_stop(page: &mut Page, refusal: &Refusal) {
    push_cause(page, refusal);
    if let Some(place) = place_of(refusal) {
        page.put(" ");
        push_spot(page, place);
    }
}
