// Trees as they are read.

use cc_ast::operator::{BinOp, UnOp};
use cc_ast::place::Place;
use cc_ast::units::Units;
use sqlite_items::{Boxed, Items};

/// A variable that is declared, and where its name stands.
#[derive(Drop)]
pub struct Named {
    pub place: Place,
    pub name: Units,
}

/// A key of an object literal (ECMA-262 5.1, 11.1.5): a name or a reserved word, a text, or a
/// number.
#[derive(Drop)]
pub enum RawKey {
    Dotted(Units),
    Quoted(Units),
    Numbered(i64),
}

/// An expression (ECMA-262 5.1, 11). The first field of each variant is its place: of an operator
/// or a call its operator or opening parenthesis, of an access its dot or bracket, of anything else
/// its first token.
#[cycle(raw)]
#[derive(Drop)]
pub enum RawExpr {
    Undefined(Place),
    Null(Place),
    Truth(Place, bool),
    Whole(Place, i64),
    Text(Place, Units),
    Var(Place, Units),
    This(Place),
    Fun(Place, Boxed<RawFunction>),
    List(Place, Items<RawExpr>),
    Object(Place, Items<RawField>),
    Unary(Place, UnOp, Boxed<RawExpr>),
    Binary(Place, BinOp, Boxed<RawExpr>, Boxed<RawExpr>),
    And(Place, Boxed<RawExpr>, Boxed<RawExpr>),
    Or(Place, Boxed<RawExpr>, Boxed<RawExpr>),
    Cond(Place, Boxed<RawExpr>, Boxed<RawExpr>, Boxed<RawExpr>),
    /// `=`, or with an operator a compound assignment.
    Assign(Place, Option<BinOp>, Boxed<RawTarget>, Boxed<RawExpr>),
    /// `++` where the first flag is true, else `--`; a prefix where the second is.
    Step(Place, bool, bool, Boxed<RawTarget>),
    /// An access with a dot, with the place of its name and the name.
    Member(Place, Boxed<RawExpr>, Place, Units),
    Index(Place, Boxed<RawExpr>, Boxed<RawExpr>),
    Call(Place, Boxed<RawExpr>, Items<RawExpr>),
    New(Place, Boxed<RawExpr>, Items<RawExpr>),
    Comma(Place, Boxed<RawExpr>, Boxed<RawExpr>),
    /// What stands in parentheses behind an annotation comment, which is a cast if the comment has
    /// a type.
    Cast(Place, Boxed<RawExpr>),
}

/// A function expression: its own name where it has one, its parameters and its body.
#[cycle(raw)]
#[derive(Drop)]
pub struct RawFunction {
    pub own: Option<Named>,
    pub params: Items<Named>,
    pub body: Items<RawStmt>,
}

/// What an assignment, a step or a `for-in` writes: a variable or an access.
#[cycle(raw)]
#[derive(Drop)]
pub enum RawTarget {
    Variable(Place, Units),
    Dotted(Place, Boxed<RawExpr>, Place, Units),
    Bracketed(Place, Boxed<RawExpr>, Boxed<RawExpr>),
}

/// A key of an object literal, with its place and value.
#[cycle(raw)]
#[derive(Drop)]
pub struct RawField {
    pub place: Place,
    pub key: RawKey,
    pub value: Boxed<RawExpr>,
}

/// A variable of a `var` statement, with its initial value where it has one (ECMA-262 5.1, 12.2).
#[cycle(raw)]
#[derive(Drop)]
pub struct RawDeclarator {
    pub variable: Named,
    pub value: Option<Boxed<RawExpr>>,
}

/// What a `for` begins with.
#[cycle(raw)]
#[derive(Drop)]
pub enum RawInit {
    Nothing,
    Value(Boxed<RawExpr>),
    Declarators(Items<RawDeclarator>),
}

/// What a `for-in` writes each name to.
#[cycle(raw)]
#[derive(Drop)]
pub enum RawForTarget {
    Target(Boxed<RawTarget>),
    Declared(Boxed<RawDeclarator>),
}

/// What stands in the parentheses of a `for`: the beginning, the test and the step.
#[cycle(raw)]
#[derive(Drop)]
pub struct RawForHead {
    pub init: RawInit,
    pub test: Option<Boxed<RawExpr>>,
    pub step: Option<Boxed<RawExpr>>,
}

/// A clause of a `switch`: its test, none for `default`, and its statements.
#[cycle(raw)]
#[derive(Drop)]
pub struct RawCase {
    pub test: Option<Boxed<RawExpr>>,
    pub body: Items<RawStmt>,
}

/// A `catch`: its variable and its body.
#[cycle(raw)]
#[derive(Drop)]
pub struct RawCatch {
    pub variable: Named,
    pub body: Items<RawStmt>,
}

/// What stands behind the body of a `try`: the `catch`, and the body of `finally`.
#[cycle(raw)]
#[derive(Drop)]
pub struct RawHandlers {
    pub catch: Option<RawCatch>,
    pub finally: Option<Items<RawStmt>>,
}

/// A function declaration: its name, its parameters and its body.
#[cycle(raw)]
#[derive(Drop)]
pub struct RawDeclaration {
    pub name: Named,
    pub params: Items<Named>,
    pub body: Items<RawStmt>,
}

/// A statement (ECMA-262 5.1, 12 and 13). The first field of each variant is its place. A body is a
/// list: a block inside a list is spliced into it, and an empty statement is nothing.
#[cycle(raw)]
#[derive(Drop)]
pub enum RawStmt {
    Simple(Place, Boxed<RawExpr>),
    Vars(Place, Items<RawDeclarator>),
    FunDecl(Place, Boxed<RawDeclaration>),
    If(Place, Boxed<RawExpr>, Items<RawStmt>, Items<RawStmt>),
    While(Place, Boxed<RawExpr>, Items<RawStmt>),
    DoWhile(Place, Items<RawStmt>, Boxed<RawExpr>),
    For(Place, Boxed<RawForHead>, Items<RawStmt>),
    ForIn(Place, RawForTarget, Boxed<RawExpr>, Items<RawStmt>),
    Return(Place, Option<Boxed<RawExpr>>),
    Throw(Place, Boxed<RawExpr>),
    Break(Place, Option<Units>),
    Continue(Place, Option<Units>),
    Label(Place, Units, Items<RawStmt>),
    Switch(Place, Boxed<RawExpr>, Items<RawCase>),
    Try(Place, Items<RawStmt>, Boxed<RawHandlers>),
}

/// An annotation comment: its place, that of the next token that is no comment, and its whole text.
#[derive(Drop)]
pub struct Comment {
    pub place: Place,
    pub next: Place,
    pub text: Units,
}

/// A file as it is read: its number, its statements, its annotation comments in order, and the whole
/// texts of those that contain `@license` or `@preserve`, in order.
#[derive(Drop)]
pub struct Tree {
    pub file: u32,
    pub body: Items<RawStmt>,
    pub docs: Items<Comment>,
    pub licences: Items<Units>,
}
