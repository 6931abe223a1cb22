//! The counts of each slot, in memory that is written only up to the highest slot that was held.

ghost use Rattle.std.specs.Prelude.{◌≡◌, ◌+◌, ◌-◌, ◌++◌, ◌<◌, ◌≤◌, ◌^◌, IfOk, IfErr, length, replicate, slice_get, slice_index_or, slice_set, vec_capacity};
ghost use Rattle.kf_core.specs.declared.refusal.Refusal.TheVariants.{NoMemory};
ghost use Rattle.kf_world.specs.Counts.{IsHeldIn, no_counts, with_hold};

use crate::counts::Counts;
use kf_core::Refusal;
use std::alloc::Global;
use std::marker::Model;

/// The counts of each slot. Memory for all of them is reserved when the list is made, so no later change
/// allocates. The counts of a slot that a caller holds were written, so they are read and changed in place.
/// (A `SlotList` would first test whether they were written.)
#[derive(Drop)]
pub(crate) struct CountList {
    items: Vec<Counts>,
    /// The number of slots.
    slots: usize,
}

impl Model for CountList {
    ghost use Rattle.std.specs.Prelude.{List, ◌≤◌, ◌-◌, ◌++◌, length, replicate, vec_capacity};
    ghost use Rattle.kf_world.specs.declared.counts.Counts.{Counts};
    ghost use Rattle.kf_world.specs.Counts.{no_counts};

    ghost Value = { List Counts };

    ghost view = { λ list. list.items.items ++ replicate (list.slots - length list.items.items) no_counts };

    ghost invariant = { λ list.
        (length list.items.items ≤ list.slots) × (list.slots ≤ vec_capacity list.items) };
}

/// Writes counts without callers for the slots up to this one. There is room for them.
#[inline(always)]
fn reach(items: &mut Vec<Counts>, slots: usize, slot: usize)
    requires within { slot < slots }
    requires few { length items.old.items ≤ slots }
    requires room { slots ≤ vec_capacity items.old }
    ensures reached { slot < length items.new.items }
    ensures few { length items.new.items ≤ slots }
    ensures room { slots ≤ vec_capacity items.new }
    ensures same { items.new.items ++ replicate (slots - length items.new.items) no_counts
        ≡ items.old.items ++ replicate (slots - length items.old.items) no_counts }
{
    if items.len() <= slot {
        let _ = items.resize(slot + 1, Counts::NONE);
    }
}

impl CountList {
    /// The counts of this many slots without callers. Fails with `NoMemory` if there is no memory for all of
    /// them.
    pub(crate) fn new(alloc: Global, slots: usize) -> Result<CountList, Refusal>
        ensures made { IfOk result (λ list. list ≡ replicate slots no_counts) }
        ensures refused { IfErr result (λ refusal. refusal ≡ NoMemory) }
    {
        match Vec::with_capacity(alloc, slots) {
            Ok(items) => Ok(CountList { items, slots }),
            Err(_) => Err(Refusal::NoMemory),
        }
    }

    /// The counts of a slot. Returns None past the last slot.
    #[inline(always)]
    pub(crate) fn get(&self, slot: usize) -> Option<Counts>
        ensures known { result ≡ slice_get self.now slot }
    {
        if slot < self.items.len() {
            Some(self.items[slot])
        } else if slot < self.slots {
            Some(Counts::NONE)
        } else {
            None
        }
    }

    /// The counts of a slot that a caller holds.
    #[inline(always)]
    pub(crate) fn held(&self, slot: usize) -> Counts
        requires held { IsHeldIn self.now slot }
        ensures known { result ≡ slice_index_or self.now slot result }
    {
        self.items[slot]
    }

    /// Replaces the counts of a slot that a caller holds.
    #[inline(always)]
    pub(crate) fn set_held(&mut self, slot: usize, counts: Counts)
        requires held { IsHeldIn self.old slot }
        ensures set { self.new ≡ slice_set self.old slot counts }
    {
        self.items[slot] = counts;
    }

    /// Counts one more hold of a slot.
    #[inline(always)]
    pub(crate) fn hold(&mut self, slot: usize)
        requires within { slot < length self.old }
        requires few { (counts : Counts) → slice_get self.old slot ≡ Some counts → counts.holds + 1 < 2 ^ 64 }
        ensures held { (counts : Counts) → slice_get self.old slot ≡ Some counts →
            self.new ≡ slice_set self.old slot (with_hold counts) }
    {
        if slot >= self.items.len() {
            reach(&mut self.items, self.slots, slot);
        }
        self.items[slot].holds += 1;
    }
}
