// The program that a source of the form is.

ghost use Rattle.std.specs.Prelude.{◌≡◌, ℕ, ◌+◌, ◌<◌, ◌≤◌, ◌^◌, ◌++◌, ◌∷◌, [], List, length, map, IfOk, All, None, false};
ghost use Rattle.cc_ast.specs.Bridge.{term};
ghost use Rattle.cc_ast.specs.Syntax as S;
ghost use Rattle.cc_ast.specs.StmtBridge.{term_stmt, term_stmts};
ghost use Rattle.cc_driver.specs.Form.{IsExterns, IsSource};
ghost use Rattle.cc_driver.specs.FormChecks.{names_in};
ghost use Rattle.cc_driver.specs.Source as source;
ghost use Rattle.cc_meaning.specs.Names.{always_kept};
ghost use Rattle.cc_driver.specs.Reach.{reach, names_of, program_with};
ghost use Rattle.std.specs.List.{IsDistinct};
ghost use Rattle.std.specs.Str.{bytes_eq};

mod globals;
mod kept;

use crate::form::{Added, Operand, Statement, Value};
use crate::names::{NameTable, name_number};
use crate::resolve::globals::{global_table, globals_of};
use crate::resolve::kept::kept_names;
use cc_ast::operator::BinOp;
use cc_ast::place::Place;
use cc_ast::program::{Heads, Program, Scope};
use cc_ast::shared::Shared;
use cc_ast::tables::{ChunkInfo, ChunkName, GlobalInfo, SiteDoc};
use cc_ast::tree::{Declarator, Expr, Ref, Stmt};
use cc_ast::units::Units;
use sqlite_items::{Boxed, Items};
use std::alloc::{AllocError, Global};

pub(crate) fn copy_units(alloc: Global, units: &Units) -> Result<Units, AllocError>
    ensures { IfOk result (λ copy. copy ≡ units.now) }
{
    Ok(Units {
        list: Vec::from_slice(alloc, units.list.as_slice())?,
    })
}

fn global_ref(table: &NameTable<'_>, name: &Units) -> Ref
    requires { length (names_in table.now) < 2 ^ 32 }
    ensures { result ≡ Ref.Global (source.number_of (names_in table.now) name.now) }
{
    Ref::Global(name_number(table, name) as u32)
}

#[tactic(auto, using(cc_ast::specs::Terms::steps))]
fn operand_tree(
    alloc: Global,
    table: &NameTable<'_>,
    operand: &Operand,
) -> Result<Boxed<Expr>, AllocError>
    requires { length (names_in table.now) < 2 ^ 32 }
    ensures { IfOk result (λ tree. term tree ≡ source.operand_tree (names_in table.now) operand.now) }
{
    match operand {
        Operand::Named(at, name) => Boxed::new(alloc, Expr::Var(*at, global_ref(table, name))),
        Operand::Text(at, text) => text_tree(alloc, *at, text),
        Operand::Whole(at, number) => Boxed::new(alloc, Expr::Whole(*at, *number)),
    }
}

#[tactic(auto, using(cc_ast::specs::Terms::steps))]
fn text_tree(alloc: Global, at: u32, text: &Units) -> Result<Boxed<Expr>, AllocError>
    ensures { IfOk result (λ tree. term tree ≡ S.lit at (S.text text.now)) }
{
    let text = copy_units(alloc, text)?;
    Boxed::new(alloc, Expr::Text(at, text))
}

#[tactic(auto, using(cc_ast::specs::Terms::steps))]
fn sum(
    alloc: Global,
    plus: u32,
    left: Boxed<Expr>,
    right: Boxed<Expr>,
) -> Result<Boxed<Expr>, AllocError>
    ensures { IfOk result (λ tree. term tree ≡ S.binary plus BinOp.Add (term left) (term right)) }
{
    Boxed::new(alloc, Expr::Binary(plus, BinOp::Add, left, right))
}

fn value_tree(
    alloc: Global,
    table: &NameTable<'_>,
    value: &Value,
) -> Result<Boxed<Expr>, AllocError>
    requires { length (names_in table.now) < 2 ^ 32 }
    ensures { IfOk result (λ tree. term tree ≡ source.value_tree (names_in table.now) value.now) }
{
    let mut tree = operand_tree(alloc, table, &value.first)?;
    for added in value.more.as_slice() {
        tree = added_tree(alloc, table, tree, added)?;
    }
    Ok(tree)
}

fn added_tree(
    alloc: Global,
    table: &NameTable<'_>,
    left: Boxed<Expr>,
    added: &Added,
) -> Result<Boxed<Expr>, AllocError>
    requires { length (names_in table.now) < 2 ^ 32 }
    ensures { IfOk result (λ tree. term tree ≡ S.binary added.now.plus BinOp.Add (term left) (source.operand_tree (names_in table.now) added.now.operand)) }
{
    let right = operand_tree(alloc, table, &added.operand)?;
    sum(alloc, added.plus, left, right)
}

fn value_trees(
    alloc: Global,
    table: &NameTable<'_>,
    values: &[Value],
) -> Result<Items<Expr>, AllocError>
    requires { length (names_in table.now) < 2 ^ 32 }
    ensures { IfOk result (λ trees. map term trees ≡ map (source.value_tree (names_in table.now)) values.now) }
{
    let mut trees = Items::new(alloc);
    for value in values {
        let Ok(tree) = value_tree(alloc, table, value) else {
            return Err(AllocError);
        };
        let Ok(()) = trees.push(tree.into_inner()) else {
            return Err(AllocError);
        };
    }
    Ok(trees)
}

#[tactic(auto, using(cc_ast::specs::StmtTerms::stmt_steps, cc_ast::specs::Terms::steps), unfolding(cc_ast::specs::StmtBridge::declarator, cc_ast::specs::Bridge::option_term))]
fn declaration_tree(
    alloc: Global,
    table: &NameTable<'_>,
    at: u32,
    name: &Units,
    value: &Value,
) -> Result<Stmt, AllocError>
    requires names { length (names_in table.now) < 2 ^ 32 }
    requires place { at + 4 < 2 ^ 32 }
    ensures { IfOk result (λ tree. term_stmt tree ≡ source.statement_tree (names_in table.now) (Statement.Declares at name.now value.now)) }
{
    let mut declarators = Items::new(alloc);
    declarators.push(Declarator {
        site: at + 4,
        variable: global_ref(table, name),
        value: Some(value_tree(alloc, table, value)?),
    })?;
    Ok(Stmt::Var(at, declarators))
}

#[tactic(auto, using(cc_ast::specs::StmtTerms::stmt_steps, cc_ast::specs::Terms::steps), unfolding(cc_ast::specs::Bridge::terms))]
fn call_tree(
    alloc: Global,
    table: &NameTable<'_>,
    at: u32,
    name: &Units,
    values: &Items<Value>,
) -> Result<Stmt, AllocError>
    requires names { length (names_in table.now) < 2 ^ 32 }
    requires place { at + length name.now < 2 ^ 32 }
    ensures { IfOk result (λ tree. term_stmt tree ≡ source.statement_tree (names_in table.now) (Statement.Calls at name.now values.now)) }
{
    let callee = Boxed::new(alloc, Expr::Var(at, global_ref(table, name)))?;
    let arguments = value_trees(alloc, table, values.as_slice())?;
    let site = at + name.list.len() as u32;
    let call = Boxed::new(alloc, Expr::Call(site, callee, arguments))?;
    Ok(Stmt::Simple(at, call))
}

fn statement_tree(
    alloc: Global,
    table: &NameTable<'_>,
    statement: &Statement,
) -> Result<Stmt, AllocError>
    requires names { length (names_in table.now) < 2 ^ 32 }
    requires place { reach statement.now < 2 ^ 32 }
    ensures { IfOk result (λ tree. term_stmt tree ≡ source.statement_tree (names_in table.now) statement.now) }
{
    match statement {
        Statement::Declares(at, name, value) => declaration_tree(alloc, table, *at, name, value),
        Statement::Calls(at, name, values) => call_tree(alloc, table, *at, name, values),
    }
}

fn statement_trees(
    alloc: Global,
    table: &NameTable<'_>,
    statements: &[Statement],
) -> Result<Items<Stmt>, AllocError>
    requires names { length (names_in table.now) < 2 ^ 32 }
    requires places { All (λ statement. reach statement < 2 ^ 32) statements.now }
    ensures { IfOk result (λ trees. map term_stmt trees ≡ map (source.statement_tree (names_in table.now)) statements.now) }
{
    let mut trees = Items::new(alloc);
    for statement in statements {
        let Ok(tree) = statement_tree(alloc, table, statement) else {
            return Err(AllocError);
        };
        let Ok(()) = trees.push(tree) else {
            return Err(AllocError);
        };
    }
    Ok(trees)
}

fn places(alloc: Global, size: usize) -> Result<Items<Place>, AllocError>
    requires { size ≤ 16777216 }
    ensures { IfOk result (λ places. places ≡ source.places_from 0 size) }
{
    let mut places = Items::new(alloc);
    for offset in 0..size as u32 {
        places.push(Place {
            file: 1,
            offset,
            line: 1,
            column: offset + 1,
        })?;
    }
    Ok(places)
}

fn main_chunk(alloc: Global) -> Result<ChunkInfo, AllocError>
    ensures { IfOk result (λ chunk. chunk ≡ source.main_chunk) }
{
    Ok(ChunkInfo {
        name: ChunkName {
            text: String::from_str(alloc, "main")?,
        },
        deps: Items::new(alloc),
    })
}

fn no_doc(alloc: Global) -> SiteDoc
    ensures { result ≡ source.no_doc }
{
    SiteDoc {
        params: Items::new(alloc),
        result: None,
        value: None,
        receiver: None,
        vars: Items::new(alloc),
        constant: false,
        define: false,
        nocollapse: false,
        export: false,
    }
}

fn only<T: Drop>(alloc: Global, item: T) -> Result<Items<T>, AllocError>
    ensures { IfOk result (λ all. all ≡ item ∷ []) }
{
    let mut all = Items::new(alloc);
    all.push(item)?;
    Ok(all)
}

fn main_scope(body: Shared<Items<Stmt>>) -> Scope
    ensures { result ≡ record { params = 0; names = 0; own = false; body = term_stmts body; parent = None; doc = 0 } }
{
    Scope {
        params: 0,
        names: 0,
        own: false,
        body,
        parent: None,
        doc: 0,
    }
}

fn main_scopes(alloc: Global, body: Items<Stmt>) -> Result<Items<Scope>, AllocError>
    ensures { IfOk result (λ scopes. scopes ≡ record { params = 0; names = 0; own = false; body = term_stmts body; parent = None; doc = 0 } ∷ []) }
{
    let body = Shared::new(alloc, body)?;
    only(alloc, main_scope(body))
}

fn shared_one<T: Drop>(alloc: Global, item: T) -> Result<Shared<Items<T>>, AllocError>
    ensures { IfOk result (λ all. all ≡ item ∷ []) }
{
    let all = only(alloc, item)?;
    Shared::new(alloc, all)
}

fn shared_none<T: Drop>(alloc: Global) -> Result<Shared<Items<T>>, AllocError>
    ensures { IfOk result (λ all. all ≡ []) }
{
    Shared::new(alloc, Items::new(alloc))
}

fn main_chunks(alloc: Global) -> Result<Shared<Items<ChunkInfo>>, AllocError>
    ensures { IfOk result (λ chunks. chunks ≡ source.main_chunk ∷ []) }
{
    let chunk = main_chunk(alloc)?;
    shared_one(alloc, chunk)
}

fn shared_kept(alloc: Global) -> Result<Shared<Items<Units>>, AllocError>
    ensures { IfOk result (λ names. names ≡ always_kept) }
{
    let names = kept_names(alloc)?;
    Shared::new(alloc, names)
}

fn shared_places(alloc: Global, size: usize) -> Result<Shared<Items<Place>>, AllocError>
    requires { size ≤ 16777216 }
    ensures { IfOk result (λ places. places ≡ source.places_from 0 size) }
{
    let places = places(alloc, size)?;
    Shared::new(alloc, places)
}

// The tables that no statement changes, beside the heads.
#[derive(Drop)]
struct Tables {
    chunks: Shared<Items<ChunkInfo>>,
    kept: Shared<Items<Units>>,
    places: Shared<Items<Place>>,
}

fn tables_with(alloc: Global, size: usize) -> Result<Tables, AllocError>
    requires { size ≤ 16777216 }
    ensures { IfOk result (λ tables. tables ≡ record { chunks = source.main_chunk ∷ []; kept = always_kept; places = source.places_from 0 size }) }
{
    let Ok(chunks) = main_chunks(alloc) else {
        return Err(AllocError);
    };
    let Ok(kept) = shared_kept(alloc) else {
        return Err(AllocError);
    };
    let Ok(places) = shared_places(alloc, size) else {
        return Err(AllocError);
    };
    Ok(Tables {
        chunks,
        kept,
        places,
    })
}

fn heads_with(alloc: Global, globals: Items<GlobalInfo>) -> Result<Heads, AllocError>
    ensures { IfOk result (λ heads. heads ≡ record { globals = globals; props = []; classes = []; docs = source.no_doc ∷ [] }) }
{
    let Ok(globals) = Shared::new(alloc, globals) else {
        return Err(AllocError);
    };
    let Ok(props) = shared_none(alloc) else {
        return Err(AllocError);
    };
    let Ok(classes) = shared_none(alloc) else {
        return Err(AllocError);
    };
    let Ok(docs) = shared_one(alloc, no_doc(alloc)) else {
        return Err(AllocError);
    };
    Ok(Heads {
        globals,
        props,
        classes,
        docs,
    })
}

fn program_with(
    alloc: Global,
    globals: Items<GlobalInfo>,
    body: Items<Stmt>,
    size: usize,
) -> Result<Program, AllocError>
    requires { size ≤ 16777216 }
    ensures { IfOk result (λ program. program ≡ program_with globals (term_stmts body) size) }
{
    let Ok(scopes) = main_scopes(alloc, body) else {
        return Err(AllocError);
    };
    let Ok(tables) = tables_with(alloc, size) else {
        return Err(AllocError);
    };
    let Ok(heads) = heads_with(alloc, globals) else {
        return Err(AllocError);
    };
    Ok(Program {
        scopes,
        chunks: tables.chunks,
        globals: heads.globals,
        props: heads.props,
        kept: tables.kept,
        classes: heads.classes,
        places: tables.places,
        docs: heads.docs,
    })
}

fn body_of(
    alloc: Global,
    globals: &Items<GlobalInfo>,
    statements: &Items<Statement>,
) -> Result<Items<Stmt>, AllocError>
    requires distinct { IsDistinct bytes_eq (names_of globals.now) }
    requires names { length (names_of globals.now) < 2 ^ 32 }
    requires places { All (λ statement. reach statement < 2 ^ 32) statements.now }
    ensures { IfOk result (λ trees. map term_stmt trees ≡ map (source.statement_tree (names_of globals.now)) statements.now) }
{
    let table = global_table(alloc, globals)?;
    statement_trees(alloc, &table, statements.as_slice())
}

/// The program that a source of `size` bytes is.
#[tactic(auto, using(crate::proofs::Resolved::resolved))]
pub fn resolve(
    alloc: Global,
    externs: &Items<Units>,
    size: usize,
    statements: &Items<Statement>,
) -> Result<Program, AllocError>
    requires of_externs { (text : List ℕ) × IsExterns text externs.now }
    requires of_source { (text : List ℕ) × (length text ≡ size) × IsSource externs.now text statements.now }
    ensures { IfOk result (λ program. program ≡ source.program_of externs.now size statements.now) }
{
    let globals = globals_of(alloc, externs, statements)?;
    let body = body_of(alloc, &globals, statements)?;
    program_with(alloc, globals, body, size)
}
