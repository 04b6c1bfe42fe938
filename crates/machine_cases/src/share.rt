// Tables as lines make them, and the program that shares them.

use crate::docs::blank_doc;
use cc_ast::place::Place;
use cc_ast::program::{Heads, Program, Scope};
use cc_ast::shared::Shared;
use cc_ast::tables::{ChunkInfo, Class, GlobalInfo, PropInfo, SiteDoc};
use cc_ast::units::Units;
use sqlite_items::Items;
use std::alloc::Global;
use std::mem;

/// The tables of a program that isn't made yet.
#[derive(Drop)]
pub struct Tables {
    pub scopes: Items<Scope>,
    pub chunks: Items<ChunkInfo>,
    pub globals: Items<GlobalInfo>,
    pub props: Items<PropInfo>,
    pub kept: Items<Units>,
    pub classes: Items<Class>,
    pub places: Items<Place>,
    pub docs: Items<SiteDoc>,
}

/// Tables without an entry.
pub fn no_tables(alloc: Global) -> Tables {
    Tables {
        scopes: Items::new(alloc),
        chunks: Items::new(alloc),
        globals: Items::new(alloc),
        props: Items::new(alloc),
        kept: Items::new(alloc),
        classes: Items::new(alloc),
        places: Items::new(alloc),
        docs: Items::new(alloc),
    }
}

/// Begins tables whose one entry is the doc that says nothing.
pub fn begin_tables(alloc: Global, tables: &mut Tables) -> Option<()> {
    *tables = no_tables(alloc);
    tables.docs.push(blank_doc(alloc)).ok()
}

// A handle on a table, which is taken from where it stood.
fn share<T: Drop>(alloc: Global, table: &mut Items<T>) -> Option<Shared<Items<T>>> {
    let table = mem::replace(table, Items::new(alloc));
    Shared::new(alloc, table).ok()
}

fn share_heads(alloc: Global, tables: &mut Tables) -> Option<Heads> {
    let Some(globals) = share(alloc, &mut tables.globals) else {
        return None;
    };
    let Some(props) = share(alloc, &mut tables.props) else {
        return None;
    };
    let Some(classes) = share(alloc, &mut tables.classes) else {
        return None;
    };
    let Some(docs) = share(alloc, &mut tables.docs) else {
        return None;
    };
    Some(Heads {
        globals,
        props,
        classes,
        docs,
    })
}

// The program of the scopes and the tables beside these heads.
fn with_heads(alloc: Global, tables: &mut Tables, heads: Heads) -> Option<Program> {
    let Some(chunks) = share(alloc, &mut tables.chunks) else {
        return None;
    };
    let Some(kept) = share(alloc, &mut tables.kept) else {
        return None;
    };
    let Some(places) = share(alloc, &mut tables.places) else {
        return None;
    };
    let Heads {
        globals,
        props,
        classes,
        docs,
    } = heads;
    Some(Program {
        scopes: mem::replace(&mut tables.scopes, Items::new(alloc)),
        chunks,
        globals,
        props,
        kept,
        classes,
        places,
        docs,
    })
}

/// The program of these tables, which are taken.
pub fn make_program(alloc: Global, tables: &mut Tables) -> Option<Program> {
    match share_heads(alloc, tables) {
        Some(heads) => with_heads(alloc, tables, heads),
        None => None,
    }
}
