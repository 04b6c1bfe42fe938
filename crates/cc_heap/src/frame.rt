// A frame.

ghost use Rattle.std.specs.Prelude.{◌≡◌, IfOk, None, Some, replicate, slice_set};
ghost use Rattle.std.specs.Option.{option_map};
ghost use Rattle.cc_meaning.specs.Acts.{place_in};
ghost use Rattle.cc_value.specs.Bridge.{value_of};
ghost use Rattle.cc_heap.specs.Kinds.{frame_kind_of};

use crate::code::FrameKind;
use cc_value::value::Value;
use sqlite_items::Items;
use std::alloc::{AllocError, Global};
use std::marker::Model;

/// A frame (ECMA-262 5.1, 10.2.1.1): a place that wasn't set has no value.
#[derive(Drop)]
pub(crate) struct Frame {
    kind: FrameKind,
    up: Option<usize>,
    places: Items<Option<Value>>,
}

impl Model for Frame {
    ghost use Rattle.cc_meaning.specs.State.{Frame as Seen};

    ghost Value = { Seen };

    ghost use Rattle.std.specs.Prelude.{map};
    ghost use Rattle.std.specs.Option.{option_map};
    ghost use Rattle.cc_value.specs.Bridge.{value_of};
    ghost use Rattle.cc_heap.specs.Kinds.{frame_kind_of};

    ghost view = { λ f. record { kind = frame_kind_of f.kind; up = f.up; values = map (option_map value_of) f.places } };
}

impl Frame {
    pub(crate) fn kind(&self) -> FrameKind
        ensures { frame_kind_of result ≡ self.now.kind }
    {
        self.kind
    }

    pub(crate) fn up(&self) -> Option<usize>
        ensures { result ≡ self.now.up }
    {
        self.up
    }

    pub(crate) fn place(&self, at: usize) -> Option<&Value>
        ensures { option_map (λ v. value_of v.now) result ≡ place_in (Some self.now) at }
    {
        match self.places.get(at) {
            Some(place) => place.as_ref(),
            None => None,
        }
    }

    /// Sets a place, where it is there.
    pub(crate) fn write(&mut self, at: usize, value: Value)
        ensures { self.new ≡ record self.old { values = slice_set self.old.values at (Some (value_of value)) } }
    {
        if at < self.places.len() {
            self.places.set(at, Some(value));
        }
    }

    /// A frame with so many places, none of which is set.
    pub(crate) fn with_places(
        alloc: Global,
        kind: FrameKind,
        up: Option<usize>,
        size: u32,
    ) -> Result<Frame, AllocError>
        ensures { IfOk result (λ f. f ≡ record { kind = frame_kind_of kind; up = up; values = replicate size None }) }
    {
        let mut places = Items::new(alloc);
        for _ in 0..size {
            places.push(None)?;
        }
        Ok(Frame { kind, up, places })
    }
}
