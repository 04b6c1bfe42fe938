// The scopes of a program, and its heads.
ghost use Rattle.std.specs.Prelude.{◌≡◌, ◌<◌, Some, IfOk, length, slice_get, slice_set};
ghost use Rattle.cc_core.specs.Work.{with_scopes, with_heads, heads_of};

use cc_ast::program::{Heads, Program, Scope};
use std::alloc::{AllocError, Global};
use std::sync::Arc;

/// The scope of a slot.
pub(crate) fn scope_of(program: &Program, slot: usize) -> &Scope
    requires { slot < length program.now.scopes }
    ensures { slice_get program.now.scopes slot ≡ Some result.now }
{
    &program.scopes.as_slice()[slot]
}

/// Puts a scope into its slot.
pub(crate) fn set_scope(program: &mut Program, slot: usize, scope: Scope)
    requires { slot < length program.old.scopes }
    ensures { program.new ≡ with_scopes program.old (slice_set program.old.scopes slot scope) }
{
    program.scopes.set(slot, scope);
}

/// A handle on a value, which is dropped where memory is wanting.
pub(crate) fn handle_on<T: Drop>(alloc: Global, value: T) -> Result<Arc<T>, AllocError>
    ensures { IfOk result (λ handle. handle.value ≡ value) }
{
    Ok(Arc::new(alloc, value)?)
}

/// The heads of a program, which share its tables.
pub fn heads_of(program: &Program) -> Result<Heads, AllocError>
    ensures { IfOk result (λ heads. heads ≡ heads_of program.now) }
{
    let Ok(globals) = program.globals.try_clone() else {
        return Err(AllocError);
    };
    let Ok(props) = program.props.try_clone() else {
        return Err(AllocError);
    };
    let Ok(classes) = program.classes.try_clone() else {
        return Err(AllocError);
    };
    let Ok(docs) = program.docs.try_clone() else {
        return Err(AllocError);
    };
    Ok(Heads {
        globals,
        props,
        classes,
        docs,
    })
}

/// Puts other heads into the program.
pub(crate) fn exchange_heads(program: &mut Program, heads: Heads)
    ensures { program.new ≡ with_heads program.old program.old.scopes heads }
{
    let Heads {
        globals,
        props,
        classes,
        docs,
    } = heads;
    program.globals = globals;
    program.props = props;
    program.classes = classes;
    program.docs = docs;
}
