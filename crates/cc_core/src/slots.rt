// The slots of a shop.
ghost use Rattle.std.specs.Prelude.{◌≡◌, ℕ, ◌+◌, ◌<◌, ◌≤◌, ◌^◌, List, [], Some, None, length, position, IfOk, IfSome, slice_get, slice_set, slice_index_or, not, true, false};
ghost use Rattle.cc_ast.specs.Syntax.{Scope as Tree};
ghost use Rattle.cc_core.specs.State.{is_pending, is_claimed, is_done, is_done_at, places, pendings, undone, all_fresh, in_place};
ghost use Rattle.cc_core.specs.Events.{at_found, at_place, claimed, one_more, put_in, given_back, entered};
ghost use Rattle.cc_core.specs.SlotState.{NoneBefore, slot_of, slots_of, is_pending_inside, is_claimed_inside, is_open_inside};

use cc_ast::program::Scope;
use std::alloc::{AllocError, Global};
use std::marker::Model;

/// How far a slot is. In a local step the scope of a done slot stands in the reading, and in a step
/// of the whole program the slot holds it.
#[derive(Drop)]
pub enum Mark {
    Pending,
    Claimed,
    Done,
    Held(Scope),
}

/// A slot, and how many claims of this phase are out on it.
#[derive(Drop)]
pub struct Slot {
    pub mark: Mark,
    pub out: u32,
}

/// The slots, one for each scope. No slot before `from` is pending, so that claims in a row look at
/// each slot once.
#[derive(Drop)]
pub struct Slots {
    items: Vec<Slot>,
    from: usize,
}

impl Model for Slots {
    ghost use Rattle.std.specs.Prelude.{List};
    ghost use Rattle.std.specs.Coded.{coded_list};
    ghost use Rattle.cc_core.specs.declared.slots.Slot.{Slot};
    ghost use Rattle.cc_core.specs.contracts.slots.Slot as slot;

    ghost Value = { List Slot };

    ghost coded = { coded_list slot.the_row.coded };

    ghost use Rattle.cc_core.specs.SlotState.{NoneBefore, is_pending_inside};

    ghost view = { λ s. s.items.items };

    ghost invariant = { λ s. NoneBefore is_pending_inside s.from s.items.items };
}

fn is_open(slot: &Slot) -> bool
    ensures { result ≡ is_pending_inside slot.now }
{
    matches!(slot.mark, Mark::Pending)
}

fn is_unfinished(slot: &Slot) -> bool
    ensures { result ≡ is_open_inside slot.now }
{
    matches!(slot.mark, Mark::Pending | Mark::Claimed)
}

fn has_scope(slot: &Slot) -> bool
    ensures { (x : Tree) → is_done (slot_of x slot.now) ≡ result }
{
    matches!(slot.mark, Mark::Done | Mark::Held(_))
}

/// The first pending slot, where those before `from` are known not to be.
#[tactic(auto, using(crate::proofs::Cursor::none_more, crate::proofs::Cursor::first_found, crate::proofs::Cursor::none_found))]
fn first_pending(slots: &[Slot], from: usize) -> Option<usize>
    requires { NoneBefore is_pending_inside from slots.now }
    ensures { result ≡ position is_pending_inside slots.now }
{
    for i in from..slots.len() {
        if is_open(&slots[i]) {
            return Some(i);
        }
    }
    None
}

fn first_claimed(slots: &[Slot]) -> Option<usize>
    ensures { result ≡ position is_claimed_inside slots.now }
{
    slots.iter().position(|s| matches!(s.mark, Mark::Claimed))
}

fn claim_slot(at: &mut Slot)
    requires { is_pending_inside at.old ≡ true }
    ensures slot { (x : Tree) → slot_of x at.new ≡ claimed (slot_of x at.old) }
    ensures taken { is_pending_inside at.new ≡ false }
{
    at.mark = Mark::Claimed;
    at.out = 1;
}

fn repeat_slot(at: &mut Slot)
    requires claimed { is_claimed_inside at.old ≡ true }
    requires room { at.old.out + 1 < 2 ^ 32 }
    ensures slot { (x : Tree) → slot_of x at.new ≡ one_more (slot_of x at.old) }
    ensures taken { is_pending_inside at.new ≡ false }
{
    at.out += 1;
}

/// Marks a slot done whose scope stands in the reading, and says whether it was not.
fn put_slot(at: &mut Slot) -> bool
    ensures put { result ≡ true → (x y : Tree) → slot_of y at.new ≡ put_in y (slot_of x at.old) }
    ensures same { result ≡ false → (x y : Tree) → slot_of x at.new ≡ put_in y (slot_of x at.old) }
    ensures done { (x : Tree) → is_done (slot_of x at.old) ≡ not result }
    ensures taken { is_pending_inside at.new ≡ false }
{
    at.out = at.out.saturating_sub(1);
    match at.mark {
        Mark::Pending | Mark::Claimed => {
            at.mark = Mark::Done;
            true
        }
        Mark::Done | Mark::Held(_) => false,
    }
}

/// Marks a slot done, with its scope, and says whether it was not.
fn hold_slot(at: &mut Slot, scope: Scope) -> bool
    ensures put { (x : Tree) → slot_of x at.new ≡ put_in scope (slot_of x at.old) }
    ensures done { (x : Tree) → is_done (slot_of x at.old) ≡ not result }
    ensures taken { is_pending_inside at.new ≡ false }
{
    at.out = at.out.saturating_sub(1);
    match at.mark {
        Mark::Pending | Mark::Claimed => {
            at.mark = Mark::Held(scope);
            true
        }
        Mark::Done | Mark::Held(_) => false,
    }
}

/// One claim fewer; the slot is pending again if it is not done and no other claim is out.
fn give_back_slot(at: &mut Slot)
    ensures { (x : Tree) → slot_of x at.new ≡ given_back (slot_of x at.old) }
{
    at.out = at.out.saturating_sub(1);
    if let Mark::Claimed = at.mark {
        if at.out == 0 {
            at.mark = Mark::Pending;
        }
    }
}

/// One claim more; a pending slot is claimed.
fn enter_slot(at: &mut Slot)
    requires { at.old.out + 1 < 2 ^ 32 }
    ensures slot { (x : Tree) → slot_of x at.new ≡ entered (slot_of x at.old) }
    ensures taken { is_pending_inside at.new ≡ false }
{
    if let Mark::Pending = at.mark {
        at.mark = Mark::Claimed;
        at.out = 1;
    } else {
        at.out += 1;
    }
}

/// How many slots are not done.
#[tactic(auto, using(crate::proofs::SlotLemmas::more_yes, crate::proofs::SlotLemmas::more_not, crate::proofs::SlotLemmas::all_places, crate::proofs::SlotLemmas::few_taken))]
fn undone_of(slots: &[Slot]) -> u32
    requires { length slots.now < 2 ^ 32 }
    ensures { result ≡ length (places is_open_inside 0 slots.now) }
{
    let mut count = 0;
    for i in 0..slots.len() {
        if is_unfinished(&slots[i]) {
            count += 1;
        }
    }
    count
}

/// How many slots are pending.
#[tactic(auto, using(crate::proofs::SlotLemmas::more_yes, crate::proofs::SlotLemmas::more_not, crate::proofs::SlotLemmas::all_places, crate::proofs::SlotLemmas::few_taken))]
fn pending_count(slots: &[Slot]) -> u32
    requires { length slots.now < 2 ^ 32 }
    ensures { result ≡ length (places is_pending_inside 0 slots.now) }
{
    let mut count = 0;
    for i in 0..slots.len() {
        if is_open(&slots[i]) {
            count += 1;
        }
    }
    count
}

/// The k-th pending slot.
#[tactic(auto, using(crate::proofs::SlotLemmas::more_yes, crate::proofs::SlotLemmas::more_not, crate::proofs::SlotLemmas::place_found, crate::proofs::SlotLemmas::none_left))]
fn pending_at(slots: &[Slot], k: u32) -> Option<u32>
    requires { length slots.now < 2 ^ 32 }
    ensures { slice_get (places is_pending_inside 0 slots.now) k ≡ result }
{
    let mut left = k;
    for i in 0..slots.len() {
        if is_open(&slots[i]) {
            if left == 0 {
                return Some(i as u32);
            }
            left -= 1;
        }
    }
    None
}

/// The pending slots.
#[tactic(auto, using(crate::proofs::SlotLemmas::places_more, crate::proofs::SlotLemmas::all_places))]
fn pending_of(alloc: Global, slots: &[Slot]) -> Result<Vec<u32>, AllocError>
    requires { length slots.now < 2 ^ 32 }
    ensures { IfOk result (λ v. v.items ≡ places is_pending_inside 0 slots.now) }
{
    let mut found = Vec::new(alloc);
    for i in 0..slots.len() {
        if is_open(&slots[i]) {
            found.push(i as u32)?;
        }
    }
    Ok(found)
}

impl Slots {
    /// So many pending slots.
    pub fn fresh(alloc: Global, count: usize) -> Result<Slots, AllocError>
        ensures { (xs : List Tree) → length xs ≡ count → IfOk result (λ s. slots_of xs s ≡ all_fresh xs) }
    {
        let mut items = Vec::with_capacity(alloc, count)?;
        for _i in 0..count {
            items.push(Slot {
                mark: Mark::Pending,
                out: 0,
            })?;
        }
        Ok(Slots { items, from: 0 })
    }

    pub fn allocator(&self) -> Global {
        *self.items.allocator()
    }

    pub fn len(&self) -> usize
        ensures { result ≡ length self.now }
    {
        self.items.len()
    }

    pub fn as_slice(&self) -> &[Slot]
        ensures { result.now ≡ self.now }
    {
        self.items.as_slice()
    }

    /// Claims the first pending slot.
    pub fn claim(&mut self) -> Option<u32>
        requires { length self.old < 2 ^ 32 }
        ensures slots { (xs : List Tree) → slots_of xs self.new ≡ at_found claimed (position is_pending (slots_of xs self.old)) (slots_of xs self.old) }
        ensures found { (xs : List Tree) → position is_pending (slots_of xs self.old) ≡ result }
    {
        match first_pending(&self.items, self.from) {
            None => {
                self.from = self.items.len();
                None
            }
            Some(slot) => {
                let at = &mut self.items[slot];
                claim_slot(at);
                self.from = slot + 1;
                Some(slot as u32)
            }
        }
    }

    /// One more claim of the first slot that is claimed.
    pub fn repeat(&mut self) -> Option<u32>
        requires few { length self.old < 2 ^ 32 }
        requires room { (k : ℕ) (s : _) → position is_claimed_inside self.old ≡ Some k → slice_get self.old k ≡ Some s → s.out + 1 < 2 ^ 32 }
        ensures slots { (xs : List Tree) → slots_of xs self.new ≡ at_found one_more (position is_claimed (slots_of xs self.old)) (slots_of xs self.old) }
        ensures found { (xs : List Tree) → position is_claimed (slots_of xs self.old) ≡ result }
    {
        match first_claimed(&self.items) {
            None => None,
            Some(slot) => {
                let at = &mut self.items[slot];
                repeat_slot(at);
                Some(slot as u32)
            }
        }
    }

    /// Marks a slot done whose scope stands in the reading, and says whether it was not.
    pub fn put(&mut self, slot: usize) -> bool
        requires { slot < length self.old }
        ensures put { result ≡ true → (xs : List Tree) (y : Tree) → slot < length xs → slots_of (slice_set xs slot y) self.new ≡ at_place (put_in y) slot (slots_of xs self.old) }
        ensures same { result ≡ false → (xs : List Tree) (y : Tree) → slots_of xs self.new ≡ at_place (put_in y) slot (slots_of xs self.old) }
        ensures done { (xs : List Tree) → is_done_at slot (slots_of xs self.old) ≡ not result }
    {
        let at = &mut self.items[slot];
        put_slot(at)
    }

    /// Marks a slot done, with its scope, and says whether it was not.
    pub fn hold(&mut self, slot: usize, scope: Scope) -> bool
        requires { slot < length self.old }
        ensures put { (xs : List Tree) → slots_of xs self.new ≡ at_place (put_in scope) slot (slots_of xs self.old) }
        ensures done { (xs : List Tree) → is_done_at slot (slots_of xs self.old) ≡ not result }
    {
        let at = &mut self.items[slot];
        hold_slot(at, scope)
    }

    /// One claim fewer; the slot is pending again if it is not done and no other claim is out.
    pub fn give_back(&mut self, slot: usize)
        requires { slot < length self.old }
        ensures { (xs : List Tree) → slots_of xs self.new ≡ at_place given_back slot (slots_of xs self.old) }
    {
        let at = &mut self.items[slot];
        give_back_slot(at);
        if slot < self.from {
            self.from = slot;
        }
    }

    /// One claim more on a slot.
    pub fn enter(&mut self, slot: usize)
        requires slot { slot < length self.old }
        requires room { (s : _) → slice_get self.old slot ≡ Some s → s.out + 1 < 2 ^ 32 }
        ensures { (xs : List Tree) → slots_of xs self.new ≡ at_place entered slot (slots_of xs self.old) }
    {
        let at = &mut self.items[slot];
        enter_slot(at)
    }

    /// Whether a slot is done.
    pub fn is_done(&self, slot: usize) -> bool
        requires { slot < length self.now }
        ensures { (xs : List Tree) → is_done_at slot (slots_of xs self.now) ≡ result }
    {
        has_scope(&self.items[slot])
    }

    /// How many slots are not done.
    pub fn undone(&self) -> u32
        requires { length self.now < 2 ^ 32 }
        ensures { (xs : List Tree) → result ≡ undone (slots_of xs self.now) }
    {
        undone_of(&self.items)
    }

    /// How many slots are pending.
    pub fn pending(&self) -> u32
        requires { length self.now < 2 ^ 32 }
        ensures { (xs : List Tree) → result ≡ length (pendings (slots_of xs self.now)) }
    {
        pending_count(&self.items)
    }

    /// The k-th pending slot.
    pub fn pending_slot(&self, k: u32) -> Option<u32>
        requires { length self.now < 2 ^ 32 }
        ensures { (xs : List Tree) → slice_get (pendings (slots_of xs self.now)) k ≡ result }
    {
        pending_at(&self.items, k)
    }

    /// The pending slots, in ascending order.
    pub fn pending_slots(&self) -> Result<Vec<u32>, AllocError>
        requires { length self.now < 2 ^ 32 }
        ensures { (xs : List Tree) → IfOk result (λ v. v.items ≡ pendings (slots_of xs self.now)) }
    {
        pending_of(*self.items.allocator(), &self.items)
    }
}
