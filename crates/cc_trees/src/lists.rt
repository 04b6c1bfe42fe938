// Lists of trees. One that grows has room for four, which is too much for the one statement of most
// bodies, or the one argument of most calls.

ghost use Rattle.std.specs.Prelude.{◌≡◌, [], ◌∷◌, ◌++◌, length, slice_get, Some, IfOk, OnOk};

use sqlite_items::{Boxed, Items};
use std::alloc::{AllocError, Global};

/// A list of this alone, with room for one.
pub(crate) fn only<T: Drop>(alloc: Global, item: T) -> Result<Items<T>, AllocError>
    ensures { IfOk result (λ all. all ≡ item ∷ []) }
{
    let mut all = Vec::with_capacity(alloc, 1)?;
    all.push(item)?;
    Ok(Items::from_vec(all))
}

/// The item of a list of one, in a box.
pub fn boxed_only<T: Drop>(alloc: Global, mut items: Items<T>) -> Result<Boxed<T>, AllocError>
    requires { length items ≡ 1 }
    ensures { IfOk result (λ item. slice_get items 0 ≡ Some item) }
{
    Boxed::new(alloc, items.remove(0))
}

/// Puts an item behind the others. The first has room for itself alone.
pub fn push<T: Drop>(alloc: Global, items: &mut Items<T>, item: T) -> Result<(), AllocError>
    ensures { OnOk result (items.new ≡ items.old ++ item ∷ []) }
{
    if items.is_empty() {
        *items = only(alloc, item)?;
        return Ok(());
    }
    items.push(item)
}

/// Puts what is in the box behind the others.
pub fn push_boxed<T: Drop>(
    alloc: Global,
    items: &mut Items<T>,
    item: Boxed<T>,
) -> Result<(), AllocError>
    ensures { OnOk result (items.new ≡ items.old ++ item ∷ []) }
{
    push(alloc, items, item.into_inner())
}

/// Puts items behind others, where there are none in the room that they have.
pub fn append<T: Drop>(items: &mut Items<T>, more: Items<T>) -> Result<(), AllocError>
    ensures { OnOk result (items.new ≡ items.old ++ more) }
{
    if items.is_empty() {
        *items = more;
        return Ok(());
    }
    items.append(more)
}
