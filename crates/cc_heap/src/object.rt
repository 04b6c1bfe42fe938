// An object.

ghost use Rattle.std.specs.Prelude.{◌≡◌, OnErr, OnOk, Some, is_some, map};
ghost use Rattle.std.specs.List.{list_any};
ghost use Rattle.std.specs.Option.{option_map};
ghost use Rattle.cc_meaning.specs.Acts.{drop_own};
ghost use Rattle.cc_meaning.specs.Rules.{prototype_object};
ghost use Rattle.cc_meaning.specs.SlotRules.{prototype_of_function};
ghost use Rattle.cc_meaning.specs.State.{bare};
ghost use Rattle.cc_meaning.specs.Store.{find_element, find_own, find_slot, put_own, set_element};
ghost use Rattle.cc_meaning.specs.Typed.{entered_in, same_element};
ghost use Rattle.cc_value.specs.Bridge.{value_of};
ghost use Rattle.cc_heap.specs.Bridge.{held_of};
ghost use Rattle.cc_heap.specs.Kinds.{code_of, kind_of};
ghost use Rattle.cc_heap.specs.Store.{element_place, hides};

use crate::code::Code;
use crate::names::{PROTOTYPE, index_of, is_array_method, is_spelled};
use crate::slot::{Held, Slot, SlotKind};
use crate::slots::Slots;
use cc_ast::tables::Element;
use cc_ast::units::Units;
use cc_value::value::Value;
use sqlite_items::{Items, at};
use std::alloc::{AllocError, Global};
use std::marker::Model;

/// An object (ECMA-262 5.1, 8.6). `chain` has the numbers of its prototypes from the nearest on.
/// An array has its elements, and the element types that were entered for it.
#[derive(Drop)]
pub(crate) struct Object {
    class: Option<u32>,
    chain: Items<usize>,
    slots: Slots,
    code: Option<Code>,
    elements: Option<Items<Value>>,
    wanted: Items<Element>,
}

impl Model for Object {
    ghost use Rattle.cc_meaning.specs.State.{Obj};

    ghost Value = { Obj };

    ghost use Rattle.std.specs.Prelude.{map};
    ghost use Rattle.std.specs.Option.{option_map};
    ghost use Rattle.cc_value.specs.Bridge.{value_of};
    ghost use Rattle.cc_heap.specs.Kinds.{code_of};

    ghost view = { λ o. record { class = o.class; chain = o.chain; slots = o.slots; code = option_map code_of o.code; elements = option_map (map value_of) o.elements; wanted = o.wanted } };
}

impl Object {
    pub(crate) fn class(&self) -> Option<u32>
        ensures { result ≡ self.now.class }
    {
        self.class
    }

    pub(crate) fn chain(&self) -> &[usize]
        ensures { result.now ≡ self.now.chain }
    {
        self.chain.as_slice()
    }

    pub(crate) fn slots(&self) -> &Slots
        ensures { result.now ≡ self.now.slots }
    {
        &self.slots
    }

    pub(crate) fn code(&self) -> Option<Code>
        ensures { option_map code_of result ≡ self.now.code }
    {
        self.code
    }

    pub(crate) fn elements(&self) -> Option<&[Value]>
        ensures { option_map (λ vs. map value_of vs.now) result ≡ self.now.elements }
    {
        match &self.elements {
            Some(items) => Some(items.as_slice()),
            None => None,
        }
    }

    pub(crate) fn wanted(&self) -> &[Element]
        ensures { result.now ≡ self.now.wanted }
    {
        self.wanted.as_slice()
    }

    // What the name is of an array: its length, or an element (ECMA-262 5.1, 15.4.5).
    fn element_named(&self, name: &Units) -> Option<Held<'_>>
        ensures { option_map held_of result ≡ find_element self.now.elements name.now }
    {
        match self.elements() {
            Some(items) => element_of(items, name.list.as_slice()),
            None => None,
        }
    }

    /// What the object itself has under a name.
    pub(crate) fn own(&self, name: &Units) -> Option<Held<'_>>
        ensures { option_map held_of result ≡ find_own self.now name.now }
    {
        match self.element_named(name) {
            Some(held) => Some(held),
            None => match self.slots.get(name.list.as_slice()) {
                Some(slot) => Some(Held::Value(&slot.value)),
                None => None,
            },
        }
    }

    /// The object that a function has as its prototype (ECMA-262 5.1, 15.3.5.2).
    pub(crate) fn prototype(&self) -> Option<usize>
        ensures { result ≡ prototype_object (prototype_of_function (Some self.now)) }
    {
        if self.code.is_none() {
            return None;
        }
        match self.slots.get(&PROTOTYPE) {
            Some(slot) => object_in(slot),
            None => None,
        }
    }

    /// Whether a built-in method of arrays or functions has this name here.
    pub(crate) fn hides(&self, name: &Units) -> bool
        ensures { result ≡ hides self.now name.now }
    {
        if self.elements.is_some() {
            is_array_method(name.list.as_slice())
        } else {
            self.code.is_some() && is_spelled(name.list.as_slice(), b"call")
        }
    }

    /// An object without anything, of this class and with this chain.
    pub(crate) fn new(alloc: Global, class: Option<u32>, chain: Items<usize>) -> Object
        ensures { result ≡ record bare { class = class; chain = chain } }
    {
        Object {
            class,
            chain,
            slots: Slots::new(alloc),
            code: None,
            elements: None,
            wanted: Items::new(alloc),
        }
    }

    /// A function object without slots.
    pub(crate) fn with_code(alloc: Global, code: Code) -> Object
        ensures { result ≡ record bare { code = Some (code_of code) } }
    {
        let mut object = Object::new(alloc, None, Items::new(alloc));
        object.code = Some(code);
        object
    }

    /// An array of these elements.
    pub(crate) fn with_elements(alloc: Global, items: Vec<Value>) -> Object
        ensures { result ≡ record bare { elements = Some (map value_of items.items) } }
    {
        let mut object = Object::new(alloc, None, Items::new(alloc));
        object.elements = Some(Items::from_vec(items));
        object
    }

    // The place that a name is of an array's elements.
    fn element_place(&self, name: &Units) -> Option<usize>
        ensures { result ≡ element_place self.now.elements name.now }
    {
        if self.elements.is_some() {
            index_of(name.list.as_slice())
        } else {
            None
        }
    }

    fn put_element(&mut self, place: usize, value: Value) -> Result<(), AllocError>
        ensures put { OnOk result (self.new ≡ record self.old { elements = option_map (λ vs. set_element vs place (value_of value)) self.old.elements }) }
        ensures err { OnErr result (self.new ≡ self.old) }
    {
        match &mut self.elements {
            Some(items) => put_item(items, place, value),
            None => Ok(()),
        }
    }

    /// Puts a value under a name: an element of an array, or else a slot (ECMA-262 5.1, 8.12.5 and
    /// 15.4.5.1).
    pub(crate) fn put(
        &mut self,
        alloc: Global,
        name: Units,
        kind: SlotKind,
        value: Value,
    ) -> Result<(), AllocError>
        ensures put { OnOk result (self.new ≡ put_own name (kind_of kind) (value_of value) self.old) }
        ensures err { OnErr result (self.new ≡ self.old) }
    {
        match self.element_place(&name) {
            Some(place) => self.put_element(place, value),
            None => {
                self.slots.put(alloc, name, kind, value)?;
                Ok(())
            }
        }
    }

    /// Removes the slot of a name, and tells whether there was one.
    pub(crate) fn remove(&mut self, name: &Units) -> bool
        ensures slots { self.new ≡ drop_own name.now self.old }
        ensures had { result ≡ is_some (find_slot self.old.slots name.now) }
    {
        self.slots.remove(name)
    }

    /// Enters an element type for an array.
    pub(crate) fn enter(&mut self, element: Element) -> Result<(), AllocError>
        ensures entered { OnOk result (self.new ≡ entered_in element self.old) }
        ensures err { OnErr result (self.new ≡ self.old) }
    {
        if self.elements.is_none() || has_element(self.wanted.as_slice(), &element) {
            return Ok(());
        }
        self.wanted.push(element)?;
        Ok(())
    }
}

// Exchanges an element, or puts one at the end.
fn put_item(items: &mut Items<Value>, place: usize, value: Value) -> Result<(), AllocError>
    ensures put { OnOk result (map value_of items.new ≡ set_element (map value_of items.old) place (value_of value)) }
    ensures err { OnErr result (items.new ≡ items.old) }
{
    if place < items.len() {
        items.set(place, value);
    } else {
        items.push(value)?;
    }
    Ok(())
}

fn object_in(slot: &Slot) -> Option<usize>
    ensures { result ≡ prototype_object (Some slot.now.value) }
{
    match &slot.value {
        Value::Object(number) => Some(*number),
        _ => None,
    }
}

fn is_same_element(a: &Element, b: &Element) -> bool
    ensures { result ≡ same_element a.now b.now }
{
    a.kinds == b.kinds && a.classes.as_slice() == b.classes.as_slice()
}

fn has_element(elements: &[Element], element: &Element) -> bool
    ensures { result ≡ list_any (λ e. same_element e element.now) elements.now }
{
    elements
        .iter()
        .any(|entered| is_same_element(entered, element))
}

fn element_of<'a>(items: &'a [Value], name: &[u16]) -> Option<Held<'a>>
    ensures { option_map held_of result ≡ find_element (Some (map value_of items.now)) name.now }
{
    if is_spelled(name, b"length") {
        return Some(Held::Length(items.len()));
    }
    match index_of(name) {
        Some(place) => match at(items, place) {
            Some(value) => Some(Held::Value(value)),
            None => None,
        },
        None => None,
    }
}
