// What waits on the stack of the machine. Frames hold references into the program, never a copy of
// a tree.

use crate::reach::{Callee, Ended, Place, Reference};
use cc_acts::script::{Answer, Inner, Turn};
use cc_acts::stop::Spot;
use cc_ast::operator::{BinOp, UnOp};
use cc_ast::tree::{Case, Declarator, Expr, ForTarget, Key, Stmt, Target};
use cc_ast::units::Units;
use cc_heap::code::Code;
use cc_value::value::Value;
use sqlite_items::{Boxed, Items};

/// Where a part of a program runs: the innermost frame, the receiver where there is one, and the
/// functions whose prototype the statement declares that is being carried out.
#[derive(Drop)]
pub(crate) struct Env {
    pub(crate) at: Option<usize>,
    pub(crate) this: Option<Value>,
    pub(crate) declares: Vec<u32>,
}

/// A global, and the properties by which one goes on from it.
#[derive(Drop)]
pub(crate) struct Path {
    pub(crate) global: u32,
    pub(crate) props: Vec<u32>,
}

/// A `while` or `for` loop: its labels, how many more turns may follow, its test, what is done after
/// each turn, and its body.
#[derive(Drop)]
pub(crate) struct Loop<'a> {
    pub(crate) labels: Vec<&'a Units>,
    pub(crate) left: u64,
    pub(crate) test: Option<&'a Expr>,
    pub(crate) rest: Option<&'a Expr>,
    pub(crate) body: &'a [Stmt],
}

/// A `do` loop.
#[derive(Drop)]
pub(crate) struct DoLoop<'a> {
    pub(crate) labels: Vec<&'a Units>,
    pub(crate) left: u64,
    pub(crate) test: &'a Expr,
    pub(crate) body: &'a [Stmt],
}

/// A `for-in` loop: the value whose names are gone through, and the names that are left, the next
/// one last.
#[derive(Drop)]
pub(crate) struct NameLoop<'a> {
    pub(crate) labels: Vec<&'a Units>,
    pub(crate) site: u32,
    pub(crate) of: Value,
    pub(crate) target: &'a ForTarget,
    pub(crate) body: &'a [Stmt],
    pub(crate) names: Items<Units>,
}

/// What waits for what an expression reaches.
#[derive(Drop)]
pub(crate) enum ReachFrame<'a> {
    ToValue,
    Unary(u32, UnOp),
    /// The site, what stands before the dot, and the property.
    Member(u32, &'a Expr, u32),
    Cast(u32, u32),
    Callee(u32, &'a [Expr]),
}

/// What waits for a value.
#[derive(Drop)]
pub(crate) enum ValueFrame<'a> {
    ToReach,
    Operand(u32, UnOp),
    Left(u32, BinOp, &'a Expr),
    Right(u32, BinOp, Value),
    And(&'a Expr),
    Or(&'a Expr),
    Comma(&'a Expr),
    Cond(&'a Expr, &'a Expr),
    Stored(Place),
    /// The old value of what a compound assignment writes: the target and the right side.
    Update(u32, BinOp, Place, &'a Target, &'a Expr),
    Updated(u32, BinOp, Place, Value),
    Stepped(u32, bool, bool, Place),
    Dot(u32, &'a Expr, u32),
    Index(u32, &'a Expr),
    Key(u32, &'a Expr, Value),
    AimDot(u32, &'a Expr, u32),
    AimIndex(u32, &'a Expr),
    AimKey(u32, &'a Expr, Value),
    New(u32, &'a [Expr]),
    Arg(Vec<Value>, &'a [Expr]),
    /// The path that is set to an object literal, the object, the key with its value, and the keys
    /// that follow.
    Field(Option<Path>, Value, &'a (Key, Expr), &'a [(Key, Expr)]),
    Got(Boxed<Reference>),
    Found(Boxed<Reference>),
    Built(Value),
    Simple,
    Declare(&'a Declarator, &'a [Declarator]),
    Branch(&'a [Stmt], &'a [Stmt]),
    Test(Loop<'a>),
    Rest(Loop<'a>),
    DoTest(DoLoop<'a>),
    Begun,
    Names(Vec<&'a Units>, u32, &'a ForTarget, &'a [Stmt]),
    Return(u32),
    Throw,
    Switch(&'a [Case]),
    /// The value of the `switch`, the case that is tested, those after it, and the cases from the
    /// default on where it was met.
    Case(Value, &'a Case, &'a [Case], Option<&'a [Case]>),
}

/// What waits for values of arguments or elements.
#[derive(Drop)]
pub(crate) enum ListFrame {
    Array,
    Apply(u32, Callee),
    Construct(u32, Value),
}

/// What waits for a place.
#[derive(Drop)]
pub(crate) enum PlaceFrame<'a> {
    Assign(u32, Option<BinOp>, &'a Target, &'a Expr),
    Step(u32, bool, bool),
    Name(Units),
}

/// What waits for an end without a value.
#[derive(Drop)]
pub(crate) enum DoneFrame<'a> {
    Reply(Spot, &'a [Inner], &'a Answer),
    Vars,
    For(Vec<&'a Units>, Option<&'a Expr>, Option<&'a Expr>, &'a [Stmt]),
    ForIn(Vec<&'a Units>, u32, &'a ForTarget, &'a Expr, &'a [Stmt]),
    NamePut(NameLoop<'a>),
    Turn(u32, &'a [Turn]),
}

/// What waits for the end of a statement.
#[derive(Drop)]
pub(crate) enum EndFrame<'a> {
    List(Vec<&'a Units>, &'a [Stmt]),
    Turn(Loop<'a>),
    Do(DoLoop<'a>),
    Name(NameLoop<'a>),
    Label(&'a Units),
    Unbroken,
    Cases(&'a [Case]),
    Resume(Ended<'a>),
}

/// What waits. The last ones also meet throws, or restore where the run stood.
#[derive(Drop)]
pub(crate) enum Frame<'a> {
    Reach(Boxed<ReachFrame<'a>>),
    Value(Boxed<ValueFrame<'a>>),
    List(Boxed<ListFrame>),
    Place(Boxed<PlaceFrame<'a>>),
    Done(Boxed<DoneFrame<'a>>),
    End(Boxed<EndFrame<'a>>),
    Args(u32, &'a [Expr]),
    Leaves(Code, bool),
    Leave(Env, u64, Code),
    Restore(Env),
    Catch(&'a [Stmt]),
    Finally(&'a [Stmt]),
    Chunk(Env, &'a [Stmt]),
    Tell,
    Load(u32),
}
