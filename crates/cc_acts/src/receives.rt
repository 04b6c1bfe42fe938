// Values that are received: an array has the element type of what receives it entered.

ghost use Rattle.std.specs.Prelude.{◌≡◌, IfOk, OnOk};
ghost use Rattle.std.specs.Option.{option_copied};
ghost use Rattle.cc_value.specs.Bridge.{value_of};
ghost use Rattle.cc_acts.specs.Received.{entered_at, received};

use cc_ast::tables::{Element, TypeSet};
use cc_heap::heap::Heap;
use cc_value::value::Value;
use sqlite_items::Items;
use std::alloc::{AllocError, Global};

fn copy_element(alloc: Global, element: &Element) -> Result<Element, AllocError>
    ensures { IfOk result (λ copy. copy ≡ element.now) }
{
    let classes = Items::from_slice(alloc, element.classes.as_slice())?;
    Ok(Element {
        kinds: element.kinds,
        classes,
    })
}

fn enter(heap: &mut Heap, element: &Element, value: &Value) -> Result<(), AllocError>
    ensures { OnOk result (heap.new ≡ record heap.old { objs = entered_at (Some element.now) (value_of value.now) heap.old.objs }) }
{
    let Value::Object(object) = value else {
        return Ok(());
    };
    let element = copy_element(heap.allocator(), element)?;
    heap.enter_element(*object, element)
}

/// What a type that receives a value does.
pub fn receive(heap: &mut Heap, wanted: Option<&TypeSet>, value: &Value) -> Result<(), AllocError>
    ensures { OnOk result (heap.new ≡ record heap.old { objs = received (option_copied wanted.entry) (value_of value.now) heap.old.objs }) }
{
    match wanted {
        Some(wanted) => match &wanted.element {
            Some(element) => enter(heap, element, value),
            None => Ok(()),
        },
        None => Ok(()),
    }
}
