// Types of annotations.

use crate::page::Page;
use cc_jsdoc::types::{Alternative, Name, Simple, TypeExpr};

/// The parts of a name with dots between them.
pub(crate) fn push_name(page: &mut Page, name: &Name) {
    let mut is_first = true;
    for part in name.parts.as_slice() {
        if !is_first {
            page.put(".");
        }
        is_first = false;
        page.units(part);
    }
}

fn push_simple(page: &mut Page, simple: &Simple) {
    match simple {
        Simple::Empty => page.put("empty"),
        Simple::Number => page.put("number"),
        Simple::Text => page.put("string"),
        Simple::Truth => page.put("boolean"),
        Simple::Function => page.put("function"),
        Simple::Array => page.put("array"),
        Simple::Named(name) => push_name(page, name),
    }
}

fn push_elements(page: &mut Page, elements: &[Simple]) {
    page.put("[");
    let mut is_first = true;
    for element in elements {
        if !is_first {
            page.put("|");
        }
        is_first = false;
        push_simple(page, element);
    }
    page.put("]");
}

fn push_alternative(page: &mut Page, alternative: &Alternative) {
    match alternative {
        Alternative::Unknown => page.put("unknown"),
        Alternative::Simple(simple) => push_simple(page, simple),
        Alternative::ArrayOf(elements) => push_elements(page, elements.as_slice()),
    }
}

/// The alternatives of a type, with bars between them; those of an element type in brackets.
pub(crate) fn push_type(page: &mut Page, expr: &TypeExpr) {
    let mut is_first = true;
    for alternative in expr.alternatives.as_slice() {
        if !is_first {
            page.put("|");
        }
        is_first = false;
        push_alternative(page, alternative);
    }
}
