// Programs of empty scopes.
ghost use Rattle.std.specs.Prelude.{◌≡◌, IfOk, length};
ghost use Rattle.cc_clear.specs.Clear.{NoDocs};
ghost use Rattle.cc_core.specs.State.{NoneOut};

use cc_ast::program::{Heads, Program, Scope};
use cc_ast::shared::Shared;
use cc_clear::clear::Clear;
use cc_core::shop::Shop;
use sqlite_items::Items;
use std::alloc::{AllocError, Global};

fn nothing<T: Drop>(alloc: Global) -> Result<Shared<Items<T>>, AllocError> {
    Shared::new(alloc, Items::new(alloc))
}

pub fn an_empty_scope(alloc: Global) -> Result<Scope, AllocError>
    ensures { IfOk result (λ made. made.doc ≡ 0) }
{
    let body = nothing(alloc)?;
    Ok(Scope {
        params: 0,
        names: 0,
        own: false,
        body,
        parent: None,
        doc: 0,
    })
}

fn scopes(alloc: Global, count: u32) -> Result<Items<Scope>, AllocError>
    ensures no_docs { IfOk result (λ made. NoDocs made) }
    ensures length { IfOk result (λ made. length made ≡ count) }
{
    let mut made = Items::new(alloc);
    for _at in 0..count {
        made.push(an_empty_scope(alloc)?)?;
    }
    Ok(made)
}

fn no_heads(alloc: Global) -> Result<Heads, AllocError> {
    let Ok(globals) = nothing(alloc) else {
        return Err(AllocError);
    };
    let Ok(props) = nothing(alloc) else {
        return Err(AllocError);
    };
    let Ok(classes) = nothing(alloc) else {
        return Err(AllocError);
    };
    let Ok(docs) = nothing(alloc) else {
        return Err(AllocError);
    };
    Ok(Heads {
        globals,
        props,
        classes,
        docs,
    })
}

// The program of these scopes and heads, without chunks.
fn with_scopes(alloc: Global, scopes: Items<Scope>, heads: Heads) -> Result<Program, AllocError>
    ensures { IfOk result (λ made. made.scopes ≡ scopes) }
{
    let Ok(chunks) = nothing(alloc) else {
        return Err(AllocError);
    };
    let Ok(kept) = nothing(alloc) else {
        return Err(AllocError);
    };
    let Ok(places) = nothing(alloc) else {
        return Err(AllocError);
    };
    let Heads {
        globals,
        props,
        classes,
        docs,
    } = heads;
    Ok(Program {
        scopes,
        chunks,
        globals,
        props,
        kept,
        classes,
        places,
        docs,
    })
}

fn a_program(alloc: Global, count: u32) -> Result<Program, AllocError>
    ensures no_docs { IfOk result (λ made. NoDocs made.scopes) }
    ensures length { IfOk result (λ made. length made.scopes ≡ count) }
{
    let scopes = scopes(alloc, count)?;
    let Ok(heads) = no_heads(alloc) else {
        return Err(AllocError);
    };
    with_scopes(alloc, scopes, heads)
}

/// A shop of a program of so many empty scopes, on which no claim is out.
pub fn a_shop(alloc: Global, count: u32) -> Result<Shop<Clear>, AllocError>
    ensures { IfOk result (λ shop. NoneOut shop.state.slots) }
{
    Shop::begin(alloc, Clear, a_program(alloc, count)?)
}
