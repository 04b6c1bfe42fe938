// Expressions and statements.

use crate::operator::{BinOp, UnOp};
use crate::units::Units;
use sqlite_items::{Boxed, Items};

/// A variable: a frame, counted outwards from the innermost one, and a place in its list, or a
/// global's number.
#[derive(Clone, Copy, PartialEq, Eq)]
pub enum Ref {
    Frame(u32, u32),
    Global(u32),
}

/// The key of an object literal: a property's number, or a text that was written in quotes.
#[derive(Drop)]
pub enum Key {
    Dotted(u32),
    Quoted(Units),
}

/// An expression (ECMA-262 5.1, 11). The first field of each variant is its site: a number in
/// the program's table of places.
#[cycle(expr)]
#[derive(Drop)]
pub enum Expr {
    Undefined(u32),
    Null(u32),
    Truth(u32, bool),
    Whole(u32, i64),
    Text(u32, Units),
    Var(u32, Ref),
    This(u32),
    /// A function expression: its scope's number.
    Fun(u32, u32),
    List(u32, Items<Expr>),
    Object(u32, Items<(Key, Expr)>),
    Unary(u32, UnOp, Boxed<Expr>),
    Binary(u32, BinOp, Boxed<Expr>, Boxed<Expr>),
    And(u32, Boxed<Expr>, Boxed<Expr>),
    Or(u32, Boxed<Expr>, Boxed<Expr>),
    Cond(u32, Boxed<Expr>, Boxed<Expr>, Boxed<Expr>),
    /// `=`, or with an operator a compound assignment.
    Assign(u32, Option<BinOp>, Boxed<Target>, Boxed<Expr>),
    /// `++` where the first flag is true, else `--`; a prefix where the second is.
    Step(u32, bool, bool, Boxed<Target>),
    /// An access with a dot: the property's number.
    Member(u32, Boxed<Expr>, u32),
    Index(u32, Boxed<Expr>, Boxed<Expr>),
    Call(u32, Boxed<Expr>, Items<Expr>),
    New(u32, Boxed<Expr>, Items<Expr>),
    Comma(u32, Boxed<Expr>, Boxed<Expr>),
    /// A cast to the type that is the value of a doc: the doc's number.
    Cast(u32, u32, Boxed<Expr>),
    /// A price mark: spends the price and then gives what is inside.
    Tick(u32, u64, Boxed<Expr>),
}

/// What an assignment, a step or a `for-in` writes: a variable or an access, with its own site.
#[cycle(expr)]
#[derive(Drop)]
pub enum Target {
    Variable(u32, Ref),
    Dotted(u32, Boxed<Expr>, u32),
    Bracketed(u32, Boxed<Expr>, Boxed<Expr>),
}

/// A variable of a `var` statement, with its initial value where it has one (ECMA-262 5.1, 12.2).
#[derive(Drop)]
pub struct Declarator {
    pub site: u32,
    pub variable: Ref,
    pub value: Option<Boxed<Expr>>,
}

/// What a `for` begins with.
#[derive(Drop)]
pub enum ForInit {
    Nothing,
    Value(Boxed<Expr>),
    Declared(Items<Declarator>),
}

/// What a `for-in` writes each name to.
#[derive(Drop)]
pub enum ForTarget {
    Target(Boxed<Target>),
    Declared(Boxed<Declarator>),
}

/// A clause of a `switch`: its test, none for `default`, and its statements.
#[cycle(stmt)]
#[derive(Drop)]
pub struct Case {
    pub test: Option<Boxed<Expr>>,
    pub body: Items<Stmt>,
}

/// A statement (ECMA-262 5.1, 12 and 13). The first field of each variant is its site. A body is
/// a list: a block inside a list is spliced into it, and an empty statement is nothing.
#[cycle(stmt)]
#[derive(Drop)]
pub enum Stmt {
    Simple(u32, Boxed<Expr>),
    Var(u32, Items<Declarator>),
    /// A function declaration: the variable that it sets, and its scope's number.
    Fun(u32, Ref, u32),
    If(u32, Boxed<Expr>, Items<Stmt>, Items<Stmt>),
    While(u32, Boxed<Expr>, Items<Stmt>),
    DoWhile(u32, Items<Stmt>, Boxed<Expr>),
    /// The beginning, the test, the step and the body.
    For(u32, ForInit, Option<Boxed<Expr>>, Option<Boxed<Expr>>, Items<Stmt>),
    ForIn(u32, ForTarget, Boxed<Expr>, Items<Stmt>),
    Return(u32, Option<Boxed<Expr>>),
    Throw(u32, Boxed<Expr>),
    Break(u32, Option<Units>),
    Continue(u32, Option<Units>),
    Label(u32, Units, Items<Stmt>),
    Switch(u32, Boxed<Expr>, Items<Case>),
    /// The body, the body of `catch`, whose variable stands alone in a frame of its own, and that
    /// of `finally`.
    Try(u32, Items<Stmt>, Option<Items<Stmt>>, Option<Items<Stmt>>),
    /// A price mark that only spends.
    Tick(u32, u64),
}
