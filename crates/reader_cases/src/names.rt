// Names and parameters by a cursor.

use crate::page::Page;
use crate::refusal::{push_construct, push_place};
use cc_cursor::cursor::Cursor;
use cc_cursor::error::{Cause, Fault, ReadError};
use cc_cursor::names::{own_name, params_of, variable};
use cc_lexer::token::{Mark, Tokens};
use cc_raw::tree::Named;
use std::alloc::Global;

// A name and its column.
fn push_named(page: &mut Page, named: &Named) {
    page.put(" ");
    page.units(&named.name);
    page.put(" ");
    page.number(i64::from(named.place.column));
}

fn push_own(alloc: Global, page: &mut Page, cursor: &mut Cursor<'_>) -> Result<(), ReadError> {
    if let Some(own) = own_name(alloc, cursor)? {
        push_named(page, &own);
    }
    cursor.expect(Mark::OpenParen)
}

fn push_params(alloc: Global, page: &mut Page, cursor: &mut Cursor<'_>) -> Result<(), ReadError> {
    for named in params_of(alloc, cursor, 9)?.as_slice() {
        push_named(page, named);
    }
    Ok(())
}

fn push_all(alloc: Global, page: &mut Page, cursor: &mut Cursor<'_>) -> Result<(), ReadError> {
    push_named(page, &variable(alloc, cursor)?);
    push_own(alloc, page, cursor)?;
    push_params(alloc, page, cursor)
}

fn push_fault(page: &mut Page, fault: Fault) {
    match fault.cause {
        Cause::Syntax => page.put(" syntax"),
        Cause::Depth => page.put(" depth"),
        Cause::Spent => page.put(" spent"),
        Cause::Refused(construct) => {
            page.put(" ");
            push_construct(page, construct);
        }
    }
    page.put(" ");
    push_place(page, fault.place);
}

/// A name, an own name of a function where there is one, and parameters in parentheses, each with
/// its column.
pub(crate) fn push_names(alloc: Global, page: &mut Page, tokens: &Tokens<'_>) {
    page.put("\n ");
    let mut cursor = Cursor::new(tokens);
    match push_all(alloc, page, &mut cursor) {
        Ok(()) => {}
        Err(ReadError::Fault(fault)) => push_fault(page, fault),
        Err(ReadError::Memory) => page.put(" memory"),
    }
}
