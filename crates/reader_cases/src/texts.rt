// The calls that take a text.

ghost use Rattle.std.specs.Prelude.{◌≡◌, ◌<◌, length, slice_index};

use crate::doc::{push_doc, push_type};
use crate::page::Page;
use cc_text::{Escape, Units, read_escape, units_of, whole};
use std::alloc::Global;

/// The units of a text, the escape at its begin, the value of a whole literal, what a type means,
/// and what a comment says.
#[derive(Clone, Copy)]
pub(crate) enum Call {
    Units,
    Escape,
    Whole,
    Type,
    Doc,
}

// In hexadecimal digits.
fn push_digits(page: &mut Page, units: &Units) {
    page.put("\n ");
    for unit in units.list.iter() {
        page.put(" ");
        page.digits(*unit);
    }
}

fn push_units(alloc: Global, page: &mut Page, text: &str) {
    match units_of(alloc, text) {
        Ok(units) => push_digits(page, &units),
        Err(_) => page.memory(),
    }
}

fn push_length(page: &mut Page, end: usize) {
    page.put(", ");
    page.count(end);
    page.put(" bytes");
}

fn push_given(page: &mut Page, escape: Escape) {
    match escape {
        Escape::Unit(unit, end) => {
            page.put("unit ");
            page.digits(unit);
            push_length(page, end);
        }
        Escape::Pair(high, low, end) => {
            page.put("pair ");
            page.digits(high);
            page.put(" ");
            page.digits(low);
            push_length(page, end);
        }
        Escape::Nothing(end) => {
            page.put("nothing");
            push_length(page, end);
        }
        Escape::Octal => page.put("octal"),
        Escape::Bad => page.put("bad"),
    }
}

// What the escape gives, and of how many bytes it is.
fn push_escape(page: &mut Page, text: &str) {
    page.row();
    match text.as_bytes() {
        [b'\\', ..] => push_given(page, read_escape(text, 0)),
        _ => page.put("no backslash"),
    }
}

fn push_whole(page: &mut Page, text: &str) {
    page.row();
    match whole(text) {
        Some(value) => page.number(value),
        None => page.put("none"),
    }
}

fn push_call(alloc: Global, page: &mut Page, call: Call, text: &str) {
    match call {
        Call::Units => push_units(alloc, page, text),
        Call::Escape => push_escape(page, text),
        Call::Whole => push_whole(page, text),
        Call::Type => push_type(alloc, page, text),
        Call::Doc => push_doc(alloc, page, text),
    }
}

/// What the call answers; false where the bytes are no text.
pub(crate) fn push_text(alloc: Global, page: &mut Page, call: Call, bytes: &[u8]) -> bool {
    match str::from_utf8(bytes) {
        Ok(text) => {
            push_call(alloc, page, call, text);
            true
        }
        Err(_) => false,
    }
}
