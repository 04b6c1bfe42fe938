// A program with the chunks of a graph and nothing else.
ghost use Rattle.std.specs.Prelude.{◌≡◌, IfOk};

use cc_ast::program::{Heads, Program};
use cc_ast::shared::Shared;
use cc_ast::tables::{ChunkInfo, ChunkName};
use sqlite_items::Items;
use std::alloc::{AllocError, Global};

pub fn program_with(alloc: Global, chunks: &[ChunkInfo]) -> Result<Program, AllocError>
    ensures { IfOk result (λ program. program.chunks ≡ chunks.now) }
{
    let Ok(copies) = copies_of(alloc, chunks) else {
        return Err(AllocError);
    };
    let Ok(chunks) = Shared::new(alloc, copies) else {
        return Err(AllocError);
    };
    program_of(alloc, chunks)
}

fn copies_of(alloc: Global, chunks: &[ChunkInfo]) -> Result<Items<ChunkInfo>, AllocError>
    ensures { IfOk result (λ copies. copies ≡ chunks.now) }
{
    let mut copies = Items::new(alloc);
    for chunk in chunks {
        let Ok(copy) = copy_of(alloc, chunk) else {
            return Err(AllocError);
        };
        let Ok(()) = copies.push(copy) else {
            return Err(AllocError);
        };
    }
    Ok(copies)
}

fn copy_of(alloc: Global, chunk: &ChunkInfo) -> Result<ChunkInfo, AllocError>
    ensures { IfOk result (λ copy. copy ≡ chunk.now) }
{
    let Ok(text) = String::from_str(alloc, chunk.name.text.as_str()) else {
        return Err(AllocError);
    };
    let Ok(deps) = Items::from_slice(alloc, chunk.deps.as_slice()) else {
        return Err(AllocError);
    };
    Ok(ChunkInfo {
        name: ChunkName { text },
        deps,
    })
}

fn none<T: Drop>(alloc: Global) -> Result<Shared<Items<T>>, AllocError> {
    Shared::new(alloc, Items::new(alloc))
}

fn no_heads(alloc: Global) -> Result<Heads, AllocError> {
    let Ok(globals) = none(alloc) else {
        return Err(AllocError);
    };
    let Ok(props) = none(alloc) else {
        return Err(AllocError);
    };
    let Ok(classes) = none(alloc) else {
        return Err(AllocError);
    };
    let Ok(docs) = none(alloc) else {
        return Err(AllocError);
    };
    Ok(Heads {
        globals,
        props,
        classes,
        docs,
    })
}

fn program_of(alloc: Global, chunks: Shared<Items<ChunkInfo>>) -> Result<Program, AllocError>
    ensures { IfOk result (λ program. program.chunks ≡ chunks) }
{
    let Ok(kept) = none(alloc) else {
        return Err(AllocError);
    };
    let Ok(places) = none(alloc) else {
        return Err(AllocError);
    };
    let Ok(heads) = no_heads(alloc) else {
        return Err(AllocError);
    };
    Ok(Program {
        scopes: Items::new(alloc),
        chunks,
        globals: heads.globals,
        props: heads.props,
        kept,
        classes: heads.classes,
        places,
        docs: heads.docs,
    })
}
