//! A list with an item for each slot, whose memory is written only up to the highest slot that was set.

ghost use Rattle.std.specs.Prelude.{◌≡◌, ◌≤◌, ◌<◌, ◌-◌, ◌++◌, ◌+◌, IfOk, IfErr, length, replicate, slice_get, slice_index_or, slice_set, vec_capacity};
ghost use Rattle.kf_core.specs.declared.refusal.Refusal.TheVariants.{NoMemory};

use crate::refusal::Refusal;
use std::alloc::Global;
use std::marker::Model;

/// A list with one item for each slot. Memory for all of them is reserved when the list is made, so later
/// changes allocate nothing. Memory is written only up to the highest slot that was set, so the system
/// provides pages only for that part.
#[derive(Drop)]
pub struct SlotList<T: Copy> {
    items: Vec<T>,
    /// The number of slots.
    slots: usize,
    /// The item of each slot that is not yet written.
    rest: T,
}

impl<T: Copy> Model for SlotList<T> {
    ghost use Rattle.std.specs.Prelude.{List, ◌≤◌, ◌-◌, ◌++◌, length, replicate, vec_capacity};

    ghost Value = { List T };

    ghost view = { λ list. list.items.items ++ replicate (list.slots - length list.items.items) list.rest };

    ghost invariant = { λ list.
        (length list.items.items ≤ list.slots) × (list.slots ≤ vec_capacity list.items) };
}

/// Writes the items up to this slot. There is room for all of them.
#[inline(always)]
fn reach<T: Copy>(items: &mut Vec<T>, slots: usize, rest: T, slot: usize)
    requires within { slot < slots }
    requires few { length items.old.items ≤ slots }
    requires room { slots ≤ vec_capacity items.old }
    ensures reached { slot < length items.new.items }
    ensures few { length items.new.items ≤ slots }
    ensures room { slots ≤ vec_capacity items.new }
    ensures same { items.new.items ++ replicate (slots - length items.new.items) rest
        ≡ items.old.items ++ replicate (slots - length items.old.items) rest }
{
    if items.len() <= slot {
        let _ = items.resize(slot + 1, rest);
    }
}

impl<T: Copy> SlotList<T> {
    /// A list of this many slots, with the same item for each. Fails with `NoMemory` if there is no memory
    /// for all of them.
    pub fn new(alloc: Global, slots: usize, item: T) -> Result<SlotList<T>, Refusal>
        ensures made { IfOk result (λ list. list ≡ replicate slots item) }
        ensures refused { IfErr result (λ refusal. refusal ≡ NoMemory) }
    {
        match Vec::with_capacity(alloc, slots) {
            Ok(items) => Ok(SlotList {
                items,
                slots,
                rest: item,
            }),
            Err(_) => Err(Refusal::NoMemory),
        }
    }

    /// The number of slots.
    #[inline(always)]
    pub fn len(&self) -> usize
        ensures known { result ≡ length self.now }
    {
        self.slots
    }

    /// The item of a slot. Returns None past the last slot.
    #[inline(always)]
    pub fn get(&self, slot: usize) -> Option<T>
        ensures known { result ≡ slice_get self.now slot }
    {
        if slot < self.items.len() {
            Some(self.items[slot])
        } else if slot < self.slots {
            Some(self.rest)
        } else {
            None
        }
    }

    /// The item of a slot.
    ///
    /// Condition: the slot is not past the last one.
    #[inline(always)]
    pub fn at(&self, slot: usize) -> T
        requires within { slot < length self.now }
        ensures known { result ≡ slice_index_or self.now slot result }
    {
        if slot < self.items.len() {
            self.items[slot]
        } else {
            self.rest
        }
    }

    /// Replaces the item of a slot.
    ///
    /// Condition: the slot is not past the last one.
    #[inline(always)]
    pub fn set(&mut self, slot: usize, item: T)
        requires within { slot < length self.old }
        ensures set { self.new ≡ slice_set self.old slot item }
    {
        reach(&mut self.items, self.slots, self.rest, slot);
        self.items[slot] = item;
    }
}
