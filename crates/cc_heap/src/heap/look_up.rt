// Look-ups on a chain (ECMA-262 5.1, 8.12.2 and 8.12.3).

ghost use Rattle.std.specs.Prelude.{◌≡◌, slice_get};
ghost use Rattle.std.specs.Option.{option_map};
ghost use Rattle.cc_meaning.specs.Store.{found_on, look_up, own_value};
ghost use Rattle.cc_heap.specs.Bridge.{held_of};
ghost use Rattle.cc_heap.specs.Found.{Meets};
ghost use Rattle.cc_heap.specs.Store.{value_if_found};

use crate::heap::Heap;
use crate::slot::Held;
use cc_ast::units::Units;

// What a look-up comes to at one object: a value, a built-in method, or nothing of the name.
pub(crate) enum Met<'a> {
    Value(Held<'a>),
    BuiltIn,
    Nothing,
}

impl Heap {
    /// What the object itself has under a name: a slot's value, an array's element or its length.
    #[tactic(auto, unfolding(cc_meaning::specs::Store::own_value))]
    pub fn read_own(&self, object: usize, name: &Units) -> Option<Held<'_>>
        ensures { option_map held_of result ≡ own_value (slice_get self.now.objs object) name.now }
    {
        match self.object(object) {
            Some(object) => object.own(name),
            None => None,
        }
    }

    fn meet(&self, object: usize, name: &Units) -> Met<'_>
        ensures { Meets (slice_get self.now.objs object) name.now result }
    {
        match self.object(object) {
            Some(object) => match object.own(name) {
                Some(held) => Met::Value(held),
                None => {
                    if object.hides(name) {
                        Met::BuiltIn
                    } else {
                        Met::Nothing
                    }
                }
            },
            None => Met::Nothing,
        }
    }

    fn read_on(&self, chain: &[usize], name: &Units) -> Option<Held<'_>>
        ensures { option_map held_of result ≡ value_if_found (found_on self.now.objs chain.now name.now) }
    {
        for number in chain {
            match self.meet(*number, name) {
                Met::Value(held) => return Some(held),
                Met::BuiltIn => return None,
                Met::Nothing => {}
            }
        }
        None
    }

    /// What a read of the slot gives: the value of the first object of the chain that has the
    /// name. Where it comes to a built-in method first, or to nothing, there is none.
    pub fn read_slot(&self, object: usize, name: &Units) -> Option<Held<'_>>
        ensures { option_map held_of result ≡ value_if_found (look_up self.now.objs object name.now) }
    {
        match self.meet(object, name) {
            Met::Value(held) => Some(held),
            Met::BuiltIn => None,
            Met::Nothing => self.read_on(self.chain(object), name),
        }
    }
}
