//! The event numbers of the slots, for one caller.

ghost use Rattle.std.specs.Prelude.{◌≡◌, ◌+◌, ◌-◌, ◌^◌, ◌<◌, ℕ, List, length, replicate, slice_index, slice_set, IfOk, IfErr};
ghost use Rattle.kf_core.specs.declared.refusal.Refusal.TheVariants.{NoMemory, NoSpace};

use kf_core::{ActiveCall, Refusal, SlotList};
use kf_pages::EventNumbers;
use std::alloc::Global;
use std::marker::Model;

/// The event number of each slot (`kernfs_open_node.event`). It belongs to the slot, not to a node, and never
/// decreases.
#[derive(Drop)]
pub struct EventTable {
    numbers: SlotList<u64>,
}

impl Model for EventTable {
    ghost Value = { List ℕ };

    ghost view = { λ t. t.numbers };
}

impl EventTable {
    /// The event numbers of this many slots, each 1. `NoMemory` if there is no memory for them.
    pub fn new(alloc: Global, slots: u32) -> Result<EventTable, Refusal>
        ensures numbers { IfOk result (λ table. table ≡ replicate slots 1) }
        ensures refused { IfErr result (λ refusal. refusal ≡ NoMemory) }
    {
        Ok(EventTable {
            numbers: SlotList::new(alloc, slots as usize, 1)?,
        })
    }

    /// The slot's event number now, or 0 if there is no such slot.
    pub fn at(&self, slot: u32) -> u64
        ensures number { result ≡ slice_index self.now slot }
    {
        match self.numbers.get(slot as usize) {
            Some(number) => number,
            None => 0,
        }
    }

    /// Raises the slot's number by one (`kernfs_notify`). `NoSpace` if it is 2^64 - 1, and then nothing
    /// changes.
    ///
    /// Condition: there is such a slot.
    pub fn raise(&mut self, slot: u32) -> Result<(), Refusal>
        requires slot { slot < length self.old }
        ensures raised { IfOk result
            (λ _. self.new ≡ slice_set self.old slot (slice_index self.old slot + 1)) }
        ensures room { IfOk result (λ _. slice_index self.old slot < 2 ^ 64 - 1) }
        ensures refused { IfErr result (λ refusal. (refusal ≡ NoSpace)
            × (slice_index self.old slot ≡ 2 ^ 64 - 1) × (self.new ≡ self.old)) }
    {
        let number = self.numbers.at(slot as usize);
        if number == u64::MAX {
            return Err(Refusal::NoSpace);
        }
        self.numbers.set(slot as usize, number + 1);
        Ok(())
    }
}

/// The event number of one slot, as an open file reads it. It borrows the table, so no number is raised
/// meanwhile.
#[derive(Drop)]
pub struct SlotEvents<'a> {
    pub table: &'a EventTable,
    pub slot: u32,
}

impl<'a, C: ActiveCall> EventNumbers<C> for SlotEvents<'a> {
    ghost gives = { λ old number new. (number ≡ slice_index old.table.now old.slot) × (new ≡ old) };

    fn now(&mut self, _call: &C) -> u64 {
        self.table.at(self.slot)
    }
}
