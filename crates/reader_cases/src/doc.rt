// Annotation comments.

use crate::page::Page;
use crate::types;
use cc_ast::units::Units;
use cc_jsdoc::doc::{Doc, DocKind, Param};
use cc_jsdoc::read_doc;
use cc_jsdoc::types::TypeExpr;
use cc_text::units_of;
use std::alloc::Global;

fn kind_name(kind: DocKind) -> &'static str {
    match kind {
        DocKind::Plain => "plain",
        DocKind::Constructor => "constructor",
        DocKind::Interface => "interface",
        DocKind::Enum => "enum",
        DocKind::Typedef => "typedef",
    }
}

fn push_classes(page: &mut Page, doc: &Doc) {
    if let Some(name) = &doc.extends {
        page.put(" extends=");
        types::push_name(page, name);
    }
    for name in doc.implements.as_slice() {
        page.put(" implements=");
        types::push_name(page, name);
    }
}

fn push_params(page: &mut Page, params: &[Param]) {
    for param in params {
        page.put(" param=");
        page.units(&param.name);
        page.put(":");
        types::push_type(page, &param.expr);
    }
}

fn push_given(page: &mut Page, word: &str, expr: &Option<TypeExpr>) {
    if let Some(expr) = expr {
        page.put(word);
        types::push_type(page, expr);
    }
}

fn push_mark(page: &mut Page, word: &str, is_given: bool) {
    if is_given {
        page.put(word);
    }
}

// All that a comment says.
fn push_all(page: &mut Page, doc: &Doc) {
    page.put(kind_name(doc.kind));
    push_classes(page, doc);
    push_params(page, doc.params.as_slice());
    push_given(page, " value=", &doc.value);
    push_given(page, " result=", &doc.result);
    push_given(page, " receiver=", &doc.receiver);
    push_mark(page, " const", doc.constant);
    push_mark(page, " define", doc.define);
    push_mark(page, " export", doc.export);
    push_mark(page, " nocollapse", doc.nocollapse);
    push_mark(page, " licence", doc.licence);
}

fn push_value(page: &mut Page, value: &Option<TypeExpr>) {
    match value {
        Some(expr) => types::push_type(page, expr),
        None => page.put("none"),
    }
}

fn push_said(page: &mut Page, doc: &Doc, is_type: bool) {
    page.row();
    if is_type {
        push_value(page, &doc.value);
    } else {
        push_all(page, doc);
    }
}

fn push_read(alloc: Global, page: &mut Page, comment: &Units, is_type: bool) {
    match read_doc(alloc, comment) {
        Ok(doc) => push_said(page, &doc, is_type),
        Err(_) => page.memory(),
    }
}

fn push_comment(alloc: Global, page: &mut Page, comment: &str, is_type: bool) {
    match units_of(alloc, comment) {
        Ok(units) => push_read(alloc, page, &units, is_type),
        Err(_) => page.memory(),
    }
}

/// What a comment says.
pub(crate) fn push_doc(alloc: Global, page: &mut Page, comment: &str) {
    push_comment(alloc, page, comment, false);
}

/// What a type means, which a comment gives.
pub(crate) fn push_type(alloc: Global, page: &mut Page, text: &str) {
    match format!(in alloc; "/** @type {{{text}}} */") {
        Ok(comment) => push_comment(alloc, page, comment.as_str(), true),
        Err(_) => page.memory(),
    }
}
