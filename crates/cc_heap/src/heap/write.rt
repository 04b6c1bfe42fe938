// Writes, and what is made.

ghost use Rattle.std.specs.Prelude.{◌≡◌, ◌++◌, ◌∷◌, [], IfOk, None, OnErr, OnOk, Some, is_some, length, map, replicate, slice_get};
ghost use Rattle.std.specs.Option.{option_map};
ghost use Rattle.cc_meaning.specs.Acts.{drop_own, frames_with, note_constructed};
ghost use Rattle.cc_meaning.specs.State.{bare};
ghost use Rattle.cc_meaning.specs.Store.{chain_of, changed_at, find_slot, put_own, slots_in};
ghost use Rattle.cc_meaning.specs.Typed.{entered_in};
ghost use Rattle.cc_value.specs.Bridge.{value_of};
ghost use Rattle.cc_heap.specs.Kinds.{code_of, frame_kind_of, kind_of};
ghost use Rattle.cc_heap.specs.Store.{chain_by};

use crate::code::{Code, FrameKind};
use crate::frame::Frame;
use crate::heap::Heap;
use crate::object::Object;
use crate::slot::SlotKind;
use cc_ast::tables::Element;
use cc_ast::units::Units;
use cc_value::value::Value;
use sqlite_items::Items;
use std::alloc::AllocError;

impl Heap {
    /// Puts a value under a name of an object: an element of an array, or else a slot. A slot that
    /// is there keeps its place and its kind (ECMA-262 5.1, 8.12.5 and 15.4.5.1).
    pub fn write_slot(
        &mut self,
        object: usize,
        name: Units,
        kind: SlotKind,
        value: Value,
    ) -> Result<(), AllocError>
        ensures put { OnOk result (self.new ≡ record self.old { objs = changed_at self.old.objs object (slice_get self.old.objs object) (put_own name (kind_of kind) (value_of value)) }) }
        ensures err { OnErr result (self.new ≡ self.old) }
    {
        let alloc = self.alloc;
        let Some(object) = self.objects.get_mut(object) else {
            return Ok(());
        };
        object.put(alloc, name, kind, value)?;
        Ok(())
    }

    /// Removes an object's own slot, and tells whether it had it (ECMA-262 5.1, 8.12.7).
    pub fn remove_slot(&mut self, object: usize, name: &Units) -> bool
        ensures slots { self.new ≡ record self.old { objs = changed_at self.old.objs object (slice_get self.old.objs object) (drop_own name.now) } }
        ensures had { result ≡ is_some (find_slot (slots_in (slice_get self.old.objs object)) name.now) }
    {
        let Some(object) = self.objects.get_mut(object) else {
            return false;
        };
        object.remove(name)
    }

    /// Enters an element type for an array.
    pub fn enter_element(&mut self, object: usize, element: Element) -> Result<(), AllocError>
        ensures entered { OnOk result (self.new ≡ record self.old { objs = changed_at self.old.objs object (slice_get self.old.objs object) (entered_in element) }) }
        ensures err { OnErr result (self.new ≡ self.old) }
    {
        let Some(object) = self.objects.get_mut(object) else {
            return Ok(());
        };
        object.enter(element)?;
        Ok(())
    }

    #[tactic(auto, unfolding(cc_meaning::specs::Store::chain_of))]
    fn chain_from(&self, proto: usize) -> Result<Items<usize>, AllocError>
        ensures { IfOk result (λ chain. chain ≡ chain_of self.now.objs proto) }
    {
        let mut chain = Vec::new(self.alloc);
        chain.push(proto)?;
        chain.extend_from_slice(self.chain(proto))?;
        Ok(Items::from_vec(chain))
    }

    fn chain_under(&self, proto: Option<usize>) -> Result<Items<usize>, AllocError>
        ensures { IfOk result (λ chain. chain ≡ chain_by self.now.objs proto) }
    {
        match proto {
            Some(proto) => self.chain_from(proto),
            None => Ok(Items::new(self.alloc)),
        }
    }

    fn add(&mut self, object: Object) -> Result<usize, AllocError>
        ensures number { IfOk result (λ number. number ≡ length self.old.objs) }
        ensures made { OnOk result (self.new ≡ record self.old { objs = self.old.objs ++ object ∷ [] }) }
        ensures err { OnErr result (self.new ≡ self.old) }
    {
        let number = self.objects.len();
        self.objects.push(object)?;
        Ok(number)
    }

    /// Makes an object without anything, and answers its number.
    pub fn make(&mut self, class: Option<u32>, proto: Option<usize>) -> Result<usize, AllocError>
        ensures number { IfOk result (λ number. number ≡ length self.old.objs) }
        ensures made { OnOk result (self.new ≡ record self.old { objs = self.old.objs ++ (record bare { class = class; chain = chain_by self.old.objs proto }) ∷ [] }) }
        ensures err { OnErr result (self.new ≡ self.old) }
    {
        let chain = self.chain_under(proto)?;
        self.add(Object::new(self.alloc, class, chain))
    }

    /// Makes a function object, whose slot `prototype` the caller makes (ECMA-262 5.1, 13.2).
    pub fn make_function(&mut self, code: Code) -> Result<usize, AllocError>
        ensures number { IfOk result (λ number. number ≡ length self.old.objs) }
        ensures made { OnOk result (self.new ≡ record self.old { objs = self.old.objs ++ (record bare { code = Some (code_of code) }) ∷ [] }) }
        ensures err { OnErr result (self.new ≡ self.old) }
    {
        self.add(Object::with_code(self.alloc, code))
    }

    /// Makes an array of these elements (ECMA-262 5.1, 11.1.4).
    pub fn make_array(&mut self, items: Vec<Value>) -> Result<usize, AllocError>
        ensures number { IfOk result (λ number. number ≡ length self.old.objs) }
        ensures made { OnOk result (self.new ≡ record self.old { objs = self.old.objs ++ (record bare { elements = Some (map value_of items.items) }) ∷ [] }) }
        ensures err { OnErr result (self.new ≡ self.old) }
    {
        self.add(Object::with_elements(self.alloc, items))
    }

    /// Notes that an object of the class was made.
    pub fn note_constructed(&mut self, class: u32) -> Result<(), AllocError>
        ensures noted { OnOk result (self.new ≡ record self.old { constructed = note_constructed (Some class) self.old.constructed }) }
        ensures err { OnErr result (self.new ≡ self.old) }
    {
        self.constructed.insert(class)?;
        Ok(())
    }

    /// Makes a frame of so many places, none of which is set, and answers its number.
    pub fn make_frame(
        &mut self,
        kind: FrameKind,
        size: u32,
        up: Option<usize>,
    ) -> Result<usize, AllocError>
        ensures number { IfOk result (λ number. number ≡ length self.old.frames) }
        ensures made { OnOk result (self.new ≡ record self.old { frames = self.old.frames ++ (record { kind = frame_kind_of kind; up = up; values = replicate size None }) ∷ [] }) }
        ensures err { OnErr result (self.new ≡ self.old) }
    {
        let frame = Frame::with_places(self.alloc, kind, up, size)?;
        let number = self.frames.len();
        self.frames.push(frame)?;
        Ok(number)
    }

    /// Sets a place of a frame, where it is there.
    pub fn write_var(&mut self, frame: usize, place: u32, value: Value)
        ensures { self.new ≡ record self.old { frames = frames_with self.old.frames frame place (value_of value) (slice_get self.old.frames frame) } }
    {
        let Some(frame) = self.frames.get_mut(frame) else {
            return;
        };
        frame.write(place as usize, value);
    }
}
