// The heap of a run.

ghost use Rattle.std.specs.Prelude.{◌≡◌, ℕ, is_some, map, nat_eq, slice_get, length};
ghost use Rattle.std.specs.List.{list_any};
ghost use Rattle.std.specs.Option.{option_copied, option_map};
ghost use Rattle.cc_meaning.specs.Acts.{place_in};
ghost use Rattle.cc_meaning.specs.Store.{chain_in, find_slot, found_on, look_up, own_value, slots_in, up_in};
ghost use Rattle.cc_meaning.specs.Typed.{class_in, elements_in};
ghost use Rattle.cc_value.specs.Bridge.{value_of};
ghost use Rattle.cc_heap.specs.Bridge.{held_of};
ghost use Rattle.cc_heap.specs.Kinds.{code_of, frame_kind_of};
ghost use Rattle.cc_heap.specs.Store.{code_in, element_in, empty_store, frame_kind_in, slot_named, value_if_found, wanted_in};

mod classes;
mod look_up;
mod operate;
mod write;

use crate::code::{Code, FrameKind};
use crate::frame::Frame;
use crate::object::Object;
use crate::slot::{Held, Slot};
use cc_ast::tables::Element;
use cc_ast::units::Units;
use cc_value::value::Value;
use indexmap::IndexSet;
use sqlite_items::at;
use std::alloc::Global;
use std::marker::Model;

/// The objects and the frames of a run by number, and the classes constructed.
#[derive(Drop)]
pub struct Heap {
    alloc: Global,
    objects: Vec<Object>,
    frames: Vec<Frame>,
    constructed: IndexSet<u32>,
}

impl Model for Heap {
    ghost use Rattle.cc_heap.specs.Store.{Store};

    ghost Value = { Store };

    ghost view = { λ h. record { objs = h.objects.items; frames = h.frames.items; constructed = h.constructed.keys } };
}

impl Heap {
    /// A heap without anything.
    pub fn new(alloc: Global) -> Heap
        ensures { result ≡ empty_store }
    {
        Heap {
            alloc,
            objects: Vec::new(alloc),
            frames: Vec::new(alloc),
            constructed: IndexSet::new(alloc),
        }
    }

    /// Where the heap takes its memory.
    pub fn allocator(&self) -> Global {
        self.alloc
    }

    fn object(&self, object: usize) -> Option<&Object>
        ensures { option_copied result ≡ slice_get self.now.objs object }
    {
        at(self.objects.as_slice(), object)
    }

    fn frame(&self, frame: usize) -> Option<&Frame>
        ensures { option_copied result ≡ slice_get self.now.frames frame }
    {
        at(self.frames.as_slice(), frame)
    }

    /// How many objects there are: the number of the next one.
    pub fn object_count(&self) -> usize
        ensures { result ≡ length self.now.objs }
    {
        self.objects.len()
    }

    /// The class that the object was made of.
    #[tactic(auto, unfolding(cc_meaning::specs::Typed::class_in))]
    pub fn class_of(&self, object: usize) -> Option<u32>
        ensures { result ≡ class_in (slice_get self.now.objs object) }
    {
        match self.object(object) {
            Some(object) => object.class(),
            None => None,
        }
    }

    /// The object's prototypes from the nearest on.
    #[tactic(auto, unfolding(cc_meaning::specs::Store::chain_in))]
    pub fn chain(&self, object: usize) -> &[usize]
        ensures { result.now ≡ chain_in (slice_get self.now.objs object) }
    {
        match self.object(object) {
            Some(object) => object.chain(),
            None => &[],
        }
    }

    /// The object's prototype at this place of its chain, where 0 is the nearest.
    pub fn chain_at(&self, object: usize, place: usize) -> Option<usize>
        ensures { result ≡ slice_get (chain_in (slice_get self.now.objs object)) place }
    {
        at(self.chain(object), place).copied()
    }

    /// The object's prototype (ECMA-262 5.1, 8.6.2).
    pub fn proto_of(&self, object: usize) -> Option<usize>
        ensures { result ≡ slice_get (chain_in (slice_get self.now.objs object)) 0 }
    {
        self.chain_at(object, 0)
    }

    /// The code of a function object.
    pub fn code_of(&self, object: usize) -> Option<Code>
        ensures { option_map code_of result ≡ code_in (slice_get self.now.objs object) }
    {
        match self.object(object) {
            Some(object) => object.code(),
            None => None,
        }
    }

    /// The function of a function object, and the frame around it.
    pub fn function_of(&self, object: usize) -> Option<(u32, Option<usize>)>
        ensures { result ≡ option_map (λ c. (c.function, c.up)) (code_in (slice_get self.now.objs object)) }
    {
        match self.code_of(object) {
            Some(code) => Some((code.function, code.up)),
            None => None,
        }
    }

    /// How many slots the object has itself.
    #[tactic(auto, unfolding(cc_meaning::specs::Store::slots_in))]
    pub fn slot_count(&self, object: usize) -> usize
        ensures { result ≡ length (slots_in (slice_get self.now.objs object)) }
    {
        match self.object(object) {
            Some(object) => object.slots().len(),
            None => 0,
        }
    }

    /// The object's own slot at this place, in order of creation.
    #[tactic(auto, unfolding(cc_meaning::specs::Store::slots_in))]
    pub fn slot_at(&self, object: usize, place: usize) -> Option<&Slot>
        ensures { option_copied result ≡ slice_get (slots_in (slice_get self.now.objs object)) place }
    {
        match self.object(object) {
            Some(object) => object.slots().at(place),
            None => None,
        }
    }

    /// The object's own slot of this name. An array's elements and its length are no slots.
    pub fn own_slot(&self, object: usize, name: &Units) -> Option<&Slot>
        ensures slot { option_copied result ≡ slot_named (slots_in (slice_get self.now.objs object)) name.now }
        ensures value { option_map (λ slot. slot.now.value) result ≡ find_slot (slots_in (slice_get self.now.objs object)) name.now }
    {
        match self.object(object) {
            Some(object) => object.slots().get(name.list.as_slice()),
            None => None,
        }
    }

    /// Whether the object is an array.
    pub fn is_array(&self, object: usize) -> bool
        ensures { result ≡ is_some (elements_in (slice_get self.now.objs object)) }
    {
        self.elements(object).is_some()
    }

    /// The elements of an array.
    #[tactic(auto, unfolding(cc_meaning::specs::Typed::elements_in))]
    pub fn elements(&self, object: usize) -> Option<&[Value]>
        ensures { option_map (λ values. map value_of values.now) result ≡ elements_in (slice_get self.now.objs object) }
    {
        match self.object(object) {
            Some(object) => object.elements(),
            None => None,
        }
    }

    /// The length of an array.
    pub fn element_count(&self, object: usize) -> Option<usize>
        ensures { result ≡ option_map length (elements_in (slice_get self.now.objs object)) }
    {
        match self.elements(object) {
            Some(values) => Some(values.len()),
            None => None,
        }
    }

    /// The element at this place.
    pub fn element_at(&self, object: usize, place: usize) -> Option<&Value>
        ensures { option_map (λ value. value_of value.now) result ≡ element_in (elements_in (slice_get self.now.objs object)) place }
    {
        match self.elements(object) {
            Some(values) => at(values, place),
            None => None,
        }
    }

    /// The element types that were entered for an array.
    pub fn wanted(&self, object: usize) -> &[Element]
        ensures { result.now ≡ wanted_in (slice_get self.now.objs object) }
    {
        match self.object(object) {
            Some(object) => object.wanted(),
            None => &[],
        }
    }

    /// Whether an object of this class was made.
    pub fn constructed(&self, class: u32) -> bool
        ensures { result ≡ list_any (λ d. nat_eq d class) self.now.constructed }
    {
        self.constructed.contains(&class)
    }

    /// What made the frame.
    pub fn frame_kind(&self, frame: usize) -> Option<FrameKind>
        ensures { option_map frame_kind_of result ≡ frame_kind_in (slice_get self.now.frames frame) }
    {
        match self.frame(frame) {
            Some(frame) => Some(frame.kind()),
            None => None,
        }
    }

    /// The frame around a frame (ECMA-262 5.1, 10.2).
    #[tactic(auto, unfolding(cc_meaning::specs::Store::up_in))]
    pub fn frame_up(&self, frame: usize) -> Option<usize>
        ensures { result ≡ up_in (slice_get self.now.frames frame) }
    {
        match self.frame(frame) {
            Some(frame) => frame.up(),
            None => None,
        }
    }

    /// The value at a place of a frame, where it was set.
    #[tactic(auto, unfolding(cc_meaning::specs::Acts::place_in))]
    pub fn read_var(&self, frame: usize, place: u32) -> Option<&Value>
        ensures { option_map (λ value. value_of value.now) result ≡ place_in (slice_get self.now.frames frame) place }
    {
        match self.frame(frame) {
            Some(frame) => frame.place(place as usize),
            None => None,
        }
    }
}
