// Trees as short texts without places: a word and parts in parentheses. A function that writes a
// part takes no other one with it, so that each call is given less than the call around it.

use crate::operators::{binary, unary};
use crate::page::Page;
use cc_ast::operator::BinOp;
use cc_ast::units::Units;
use cc_raw::tree::{
    Named, RawCase, RawCatch, RawDeclaration, RawDeclarator, RawExpr, RawField, RawForHead,
    RawForTarget, RawFunction, RawHandlers, RawInit, RawKey, RawStmt, RawTarget,
};
use sqlite_items::{Boxed, Items};

fn push_quoted(page: &mut Page, text: &Units) {
    page.put("'");
    page.units(text);
    page.put("'");
}

fn push_key(page: &mut Page, key: &RawKey) {
    match key {
        RawKey::Dotted(name) => page.units(name),
        RawKey::Quoted(text) => push_quoted(page, text),
        RawKey::Numbered(number) => page.number(*number),
    }
}

// The own name of a function, if it has one, and its parameters.
fn push_head(page: &mut Page, name: &Option<Named>, params: &Items<Named>) {
    page.put("(function");
    if let Some(name) = name {
        page.put(" ");
        page.units(&name.name);
    }
    push_params(page, params);
}

fn push_params(page: &mut Page, params: &Items<Named>) {
    for param in params.as_slice() {
        page.put(" ");
        page.units(&param.name);
    }
    page.put(" ");
}

fn push_jump(page: &mut Page, word: &str, label: &Option<Units>) {
    page.put(word);
    match label {
        Some(label) => page.units(label),
        None => page.put("_"),
    }
}

// The operator of an assignment.
fn push_equal(page: &mut Page, operator: &Option<BinOp>) {
    page.put(" ");
    if let Some(operator) = operator {
        page.put(binary(*operator));
    }
    page.put("=");
}

fn step_word(up: bool, prefix: bool) -> &'static str {
    match (up, prefix) {
        (true, true) => "(prefix ++ ",
        (true, false) => "(postfix ++ ",
        (false, true) => "(prefix -- ",
        (false, false) => "(postfix -- ",
    }
}

fn push_name_last(page: &mut Page, name: &Units) {
    page.put(" ");
    page.units(name);
    page.put(")");
}

// The word of an expression that is one or begins with one.
fn word_of(e: &RawExpr) -> &'static str {
    match e {
        RawExpr::Undefined(_) => "void",
        RawExpr::Null(_) => "null",
        RawExpr::Truth(_, true) => "true",
        RawExpr::Truth(_, false) => "false",
        RawExpr::This(_) => "this",
        RawExpr::Unary(_, operator, _) => unary(*operator),
        RawExpr::Binary(_, operator, _, _) => binary(*operator),
        RawExpr::And(_, _, _) => "&&",
        RawExpr::Or(_, _, _) => "||",
        RawExpr::Index(_, _, _) => "at",
        RawExpr::Comma(_, _, _) => ",",
        RawExpr::Cast(_, _) => "cast",
        _ => "",
    }
}

#[cycle(shape)]
fn push_expr(page: &mut Page, e: &RawExpr) {
    match e {
        RawExpr::Undefined(_) | RawExpr::Null(_) | RawExpr::Truth(_, _) | RawExpr::This(_) => {
            page.put(word_of(e))
        }
        RawExpr::Whole(_, number) => page.number(*number),
        RawExpr::Text(_, text) => push_quoted(page, text),
        RawExpr::Var(_, name) => page.units(name),
        RawExpr::Unary(_, _, a) | RawExpr::Cast(_, a) => {
            push_first(page, word_of(e), a.get());
            page.put(")");
        }
        RawExpr::Binary(_, _, a, b)
        | RawExpr::And(_, a, b)
        | RawExpr::Or(_, a, b)
        | RawExpr::Index(_, a, b)
        | RawExpr::Comma(_, a, b) => {
            push_first(page, word_of(e), a.get());
            push_last(page, b.get());
        }
        RawExpr::Object(_, fields) => push_fields(page, fields),
        RawExpr::List(_, items) => {
            page.put("(list");
            push_items(page, items);
        }
        RawExpr::Fun(_, function) => push_function(page, function.get()),
        _ => push_other(page, e),
    }
}

#[cycle(shape)]
fn push_function(page: &mut Page, function: &RawFunction) {
    push_head(page, &function.own, &function.params);
    push_body(page, &function.body);
    page.put(")");
}

// What is called, reached or written.
#[cycle(shape)]
fn push_other(page: &mut Page, e: &RawExpr) {
    match e {
        RawExpr::Member(_, object, _, name) => {
            push_first(page, "dot", object.get());
            push_name_last(page, name);
        }
        RawExpr::New(_, callee, arguments) => {
            push_first(page, "new", callee.get());
            push_items(page, arguments);
        }
        RawExpr::Call(_, callee, arguments) => {
            page.put("(");
            push_expr(page, callee.get());
            page.put(" call");
            push_items(page, arguments);
        }
        RawExpr::Cond(_, test, a, b) => {
            page.put("(");
            push_expr(page, test.get());
            push_next(page, " ?", a.get());
            push_last(page, b.get());
        }
        RawExpr::Assign(_, operator, target, value) => {
            page.put("(");
            push_target(page, target.get());
            push_equal(page, operator);
            push_last(page, value.get());
        }
        RawExpr::Step(_, up, prefix, target) => {
            page.put(step_word(*up, *prefix));
            push_target(page, target.get());
            page.put(")");
        }
        _ => {}
    }
}

// An expression behind a word and a space.
#[cycle(shape)]
fn push_next(page: &mut Page, word: &str, e: &RawExpr) {
    page.put(word);
    page.put(" ");
    push_expr(page, e);
}

#[cycle(shape)]
fn push_first(page: &mut Page, word: &str, e: &RawExpr) {
    page.put("(");
    push_next(page, word, e);
}

#[cycle(shape)]
fn push_last(page: &mut Page, e: &RawExpr) {
    push_next(page, "", e);
    page.put(")");
}

// An expression behind a word, or a `_` where there is none.
#[cycle(shape)]
fn push_option(page: &mut Page, word: &str, e: &Option<Boxed<RawExpr>>) {
    match e {
        Some(e) => push_next(page, word, e.get()),
        None => {
            page.put(word);
            page.put(" _");
        }
    }
}

#[cycle(shape)]
fn push_items(page: &mut Page, items: &Items<RawExpr>) {
    for e in items.as_slice() {
        push_next(page, "", e);
    }
    page.put(")");
}

#[cycle(shape)]
fn push_fields(page: &mut Page, fields: &Items<RawField>) {
    page.put("(object");
    for field in fields.as_slice() {
        page.put(" ");
        push_key(page, &field.key);
        page.put(":");
        push_expr(page, field.value.get());
    }
    page.put(")");
}

#[cycle(shape)]
fn push_target(page: &mut Page, target: &RawTarget) {
    match target {
        RawTarget::Variable(_, name) => page.units(name),
        RawTarget::Dotted(_, object, _, name) => {
            push_first(page, "dot", object.get());
            push_name_last(page, name);
        }
        RawTarget::Bracketed(_, object, key) => {
            push_first(page, "at", object.get());
            push_last(page, key.get());
        }
    }
}

#[cycle(shape)]
fn push_declarator(page: &mut Page, declarator: &RawDeclarator) {
    page.put("var ");
    page.units(&declarator.variable.name);
    push_option(page, " =", &declarator.value);
}

#[cycle(shape)]
fn push_variables(page: &mut Page, declarators: &Items<RawDeclarator>) {
    let mut is_first = true;
    for declarator in declarators.as_slice() {
        if !is_first {
            page.put(", ");
        }
        is_first = false;
        push_declarator(page, declarator);
    }
}

/// The statements of a list, in braces.
#[cycle(shape)]
pub(crate) fn push_body(page: &mut Page, body: &Items<RawStmt>) {
    page.put("{");
    let mut is_first = true;
    for stmt in body.as_slice() {
        if !is_first {
            page.put("; ");
        }
        is_first = false;
        push_stmt(page, stmt);
    }
    page.put("}");
}

#[cycle(shape)]
fn push_stmt(page: &mut Page, stmt: &RawStmt) {
    match stmt {
        RawStmt::Simple(_, e) => push_expr(page, e.get()),
        RawStmt::Vars(_, declarators) => push_variables(page, declarators),
        RawStmt::Return(_, e) => push_option(page, "return", e),
        RawStmt::Throw(_, e) => push_next(page, "throw", e.get()),
        RawStmt::Break(_, label) => push_jump(page, "break ", label),
        RawStmt::Continue(_, label) => push_jump(page, "continue ", label),
        RawStmt::FunDecl(_, declaration) => push_declaration(page, declaration.get()),
        RawStmt::Label(_, label, body) => {
            page.units(label);
            page.put(": ");
            push_body(page, body);
        }
        RawStmt::If(_, test, then, otherwise) => {
            push_next(page, "if", test.get());
            push_block(page, " ", then);
            push_block(page, " ", otherwise);
        }
        RawStmt::Switch(_, e, cases) => {
            push_next(page, "switch", e.get());
            push_cases(page, cases);
        }
        RawStmt::Try(_, body, handlers) => {
            push_block(page, "try ", body);
            push_handlers(page, handlers.get());
        }
        _ => push_loop(page, stmt),
    }
}

#[cycle(shape)]
fn push_declaration(page: &mut Page, declaration: &RawDeclaration) {
    page.put("function ");
    page.units(&declaration.name.name);
    push_params(page, &declaration.params);
    push_body(page, &declaration.body);
}

// What stands behind the body of a `try`.
#[cycle(shape)]
fn push_handlers(page: &mut Page, handlers: &RawHandlers) {
    push_catch(page, &handlers.catch);
    if let Some(body) = &handlers.finally {
        push_block(page, " finally ", body);
    }
}

// A body behind a word.
#[cycle(shape)]
fn push_block(page: &mut Page, word: &str, body: &Items<RawStmt>) {
    page.put(word);
    push_body(page, body);
}

#[cycle(shape)]
fn push_case(page: &mut Page, case: &RawCase) {
    push_option(page, " case", &case.test);
    push_block(page, " ", &case.body);
}

#[cycle(shape)]
fn push_cases(page: &mut Page, cases: &Items<RawCase>) {
    for case in cases.as_slice() {
        push_case(page, case);
    }
}

#[cycle(shape)]
fn push_catch(page: &mut Page, caught: &Option<RawCatch>) {
    if let Some(caught) = caught {
        page.put(" catch ");
        page.units(&caught.variable.name);
        push_block(page, " ", &caught.body);
    }
}

#[cycle(shape)]
fn push_loop(page: &mut Page, stmt: &RawStmt) {
    match stmt {
        RawStmt::While(_, test, body) => {
            push_next(page, "while", test.get());
            push_block(page, " ", body);
        }
        RawStmt::DoWhile(_, body, test) => {
            push_block(page, "do ", body);
            push_next(page, "", test.get());
        }
        RawStmt::For(_, head, body) => {
            push_for_head(page, head.get());
            push_block(page, " ", body);
        }
        RawStmt::ForIn(_, target, e, body) => {
            push_for_target(page, target);
            push_next(page, " in", e.get());
            push_block(page, " ", body);
        }
        _ => {}
    }
}

#[cycle(shape)]
fn push_for_head(page: &mut Page, head: &RawForHead) {
    push_init(page, &head.init);
    push_option(page, ";", &head.test);
    push_option(page, ";", &head.step);
}

#[cycle(shape)]
fn push_init(page: &mut Page, init: &RawInit) {
    page.put("for ");
    match init {
        RawInit::Nothing => page.put("_"),
        RawInit::Value(e) => push_expr(page, e.get()),
        RawInit::Declarators(declarators) => push_variables(page, declarators),
    }
}

#[cycle(shape)]
fn push_for_target(page: &mut Page, target: &RawForTarget) {
    page.put("for ");
    match target {
        RawForTarget::Target(target) => push_target(page, target.get()),
        RawForTarget::Declared(declarator) => push_declarator(page, declarator.get()),
    }
}
