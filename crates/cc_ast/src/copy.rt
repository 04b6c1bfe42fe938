// Copies. A tree or a table is never copied: its handle is.
ghost use Rattle.std.specs.Prelude.{◌≡◌, IfOk};

use crate::program::{Heads, Names, Program, Scope};
use crate::tree::Key;
use crate::units::Units;
use sqlite_items::Items;
use std::alloc::{AllocError, Global};

/// What can be copied: the copy is equal.
pub trait CopyOf: Drop + Sized {
    fn copy_of(&self, alloc: Global) -> Result<Self, AllocError>
        ensures { IfOk result (λ copy. copy ≡ self.now) };
}

impl CopyOf for Units {
    fn copy_of(&self, alloc: Global) -> Result<Units, AllocError> {
        Ok(Units {
            list: Vec::from_slice(alloc, self.list.as_slice())?,
        })
    }
}

impl CopyOf for Key {
    fn copy_of(&self, alloc: Global) -> Result<Key, AllocError> {
        match self {
            Key::Dotted(prop) => Ok(Key::Dotted(*prop)),
            Key::Quoted(units) => Ok(Key::Quoted(units.copy_of(alloc)?)),
        }
    }
}

impl CopyOf for Scope {
    fn copy_of(&self, _alloc: Global) -> Result<Scope, AllocError> {
        copy_scope(self)
    }
}

/// A list of equal items.
pub fn copy_items<T: CopyOf>(alloc: Global, items: &Items<T>) -> Result<Items<T>, AllocError>
    ensures { IfOk result (λ copy. copy ≡ items.now) }
{
    let mut copies = Items::new(alloc);
    for item in items.as_slice() {
        copies.push(item.copy_of(alloc)?)?;
    }
    Ok(copies)
}

/// The copy of what is there.
pub fn copy_option<T: CopyOf>(alloc: Global, option: &Option<T>) -> Result<Option<T>, AllocError>
    ensures { IfOk result (λ copy. copy ≡ option.now) }
{
    match option {
        None => Ok(None),
        Some(value) => Ok(Some(value.copy_of(alloc)?)),
    }
}

/// A scope equal to this one, which shares its body.
pub fn copy_scope(scope: &Scope) -> Result<Scope, AllocError>
    ensures { IfOk result (λ copy. copy ≡ scope.now) }
{
    Ok(Scope {
        params: scope.params,
        names: scope.names,
        own: scope.own,
        body: scope.body.try_clone()?,
        parent: scope.parent,
        doc: scope.doc,
    })
}

/// Heads equal to these, which share their tables.
pub fn copy_heads(heads: &Heads) -> Result<Heads, AllocError>
    ensures { IfOk result (λ copy. copy ≡ heads.now) }
{
    Ok(Heads {
        globals: heads.globals.try_clone()?,
        props: heads.props.try_clone()?,
        classes: heads.classes.try_clone()?,
        docs: heads.docs.try_clone()?,
    })
}

/// Names equal to these.
pub fn copy_names(alloc: Global, names: &Names) -> Result<Names, AllocError>
    ensures { IfOk result (λ copy. copy ≡ names.now) }
{
    Ok(Names {
        globals: copy_items(alloc, &names.globals)?,
        slots: copy_items(alloc, &names.slots)?,
    })
}

/// A program equal to this one, which shares its bodies and tables.
pub fn copy_program(alloc: Global, program: &Program) -> Result<Program, AllocError>
    ensures { IfOk result (λ copy. copy ≡ program.now) }
{
    Ok(Program {
        scopes: copy_items(alloc, &program.scopes)?,
        chunks: program.chunks.try_clone()?,
        globals: program.globals.try_clone()?,
        props: program.props.try_clone()?,
        kept: program.kept.try_clone()?,
        classes: program.classes.try_clone()?,
        places: program.places.try_clone()?,
        docs: program.docs.try_clone()?,
    })
}
