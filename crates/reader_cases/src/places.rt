// The places of statements and expressions.

use crate::page::Page;
use crate::refusal::push_place;
use cc_ast::place::Place;
use cc_raw::tree::{RawExpr, RawStmt};
use sqlite_items::Items;

fn place_of(e: &RawExpr) -> Place {
    match e {
        RawExpr::Undefined(place)
        | RawExpr::Null(place)
        | RawExpr::Truth(place, _)
        | RawExpr::Whole(place, _)
        | RawExpr::Text(place, _)
        | RawExpr::Var(place, _)
        | RawExpr::This(place)
        | RawExpr::Fun(place, _)
        | RawExpr::List(place, _)
        | RawExpr::Object(place, _)
        | RawExpr::Unary(place, _, _)
        | RawExpr::Binary(place, _, _, _)
        | RawExpr::And(place, _, _)
        | RawExpr::Or(place, _, _)
        | RawExpr::Cond(place, _, _, _)
        | RawExpr::Assign(place, _, _, _)
        | RawExpr::Step(place, _, _, _)
        | RawExpr::Member(place, _, _, _)
        | RawExpr::Index(place, _, _)
        | RawExpr::Call(place, _, _)
        | RawExpr::New(place, _, _)
        | RawExpr::Comma(place, _, _)
        | RawExpr::Cast(place, _) => *place,
    }
}

fn push_pair(page: &mut Page, place: Place, e: &RawExpr) {
    push_place(page, place);
    page.put(" ");
    push_place(page, place_of(e));
    page.put(";");
}

fn push_statement(page: &mut Page, stmt: &RawStmt) {
    match stmt {
        RawStmt::Simple(place, e)
        | RawStmt::While(place, e, _)
        | RawStmt::ForIn(place, _, e, _)
        | RawStmt::Throw(place, e) => push_pair(page, *place, e.get()),
        _ => page.put("another;"),
    }
}

/// The place of each statement, and that of the expression which it is or which stands in its head.
pub(crate) fn push_places(page: &mut Page, body: &Items<RawStmt>) {
    let mut is_first = true;
    for stmt in body.as_slice() {
        if !is_first {
            page.put(" ");
        }
        is_first = false;
        push_statement(page, stmt);
    }
}
