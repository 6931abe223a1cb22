//! The records by slot; beside each its key, if it is live; and how many records there are.

ghost use Rattle.std.specs.Prelude.{◌≡◌, ◌<◌, Option, Some, None, IfOk, IfErr, length, map, replicate, slice_get, slice_set, count_by, is_some};
ghost use Rattle.std.specs.Option.{option_copied, option_and_then};
ghost use Rattle.kf_core.specs.declared.records.Record.{Record};
ghost use Rattle.kf_core.specs.Commands.{doomed_record, hidden_record, moved_record};
ghost use Rattle.kf_core.specs.Tree.{Tree};
ghost use Rattle.kf_table.specs.Changes.{with_changed_slot, activated_unless_doomed};
ghost use Rattle.kf_table.specs.Live.{live_in, live_key};

use crate::children::is_live;
use crate::slots::{activate_slot, doom_slot, move_slot, set_hidden_slot};
use kf_core::{Key, NameBytes, Record, Refusal, SlotList, SlotMap};
use std::alloc::Global;
use std::marker::Model;

/// The records by slot. In contracts they are the tree.
#[derive(Drop)]
pub(crate) struct Records {
    slots: SlotMap<Record>,
    /// The keys of the live records, by slot. So a listing looks at 12 bytes for each name instead of 88.
    live: SlotList<Option<Key>>,
    /// How many records there are.
    linked: usize,
}

impl Model for Records {
    ghost use Rattle.std.specs.Prelude.{◌≡◌, List, Option, map, count_by, is_some};
    ghost use Rattle.kf_core.specs.declared.records.Record.{Record};
    ghost use Rattle.kf_table.specs.Live.{live_key};

    ghost Value = { List (Option Record) };

    ghost view = { λ records. records.slots };

    ghost invariant = { λ records. (records.live ≡ map live_key records.slots)
        × (records.linked ≡ count_by is_some records.slots) };
}

/// The key of a slot's record, if the record is live.
fn live_key(entry: Option<&Record>) -> Option<Key>
    ensures known { result ≡ live_key (option_copied entry.entry) }
{
    match entry {
        Some(found) if is_live(found) => Some(found.key),
        _ => None,
    }
}

/// Notes again whether the record in this slot is live, since that may have changed.
fn note(live: &mut SlotList<Option<Key>>, slots: &SlotMap<Record>, slot: u32)
    ensures kept { (before : Tree) (entry : Option Record) → live.old ≡ map live_key before
        → slots.now ≡ slice_set before slot entry → live.new ≡ map live_key slots.now }
{
    let key = live_key(slots.get(slot as usize));
    let at = slot as usize;
    if at < live.len() {
        live.set(at, key);
    }
}

impl Records {
    /// Makes this many slots, without records.
    pub(crate) fn new(alloc: Global, slots: u32) -> Result<Records, Refusal>
        ensures made { IfOk result (λ records. records ≡ replicate slots None) }
        ensures refused { IfErr result (λ refusal. refusal ≡ Refusal.NoMemory) }
    {
        Ok(Records {
            slots: SlotMap::new(alloc, slots as usize)?,
            live: SlotList::new(alloc, slots as usize, None)?,
            linked: 0,
        })
    }

    /// The number of slots.
    #[inline(always)]
    pub(crate) fn len(&self) -> usize
        ensures known { result ≡ length self.now }
    {
        self.slots.len()
    }

    /// How many slots have a record.
    #[inline(always)]
    pub(crate) fn linked(&self) -> usize
        ensures known { result ≡ count_by is_some self.now }
    {
        self.linked
    }

    /// The record in a slot. It is None if the slot has no record, or is past the last slot.
    #[inline(always)]
    pub(crate) fn get(&self, slot: u32) -> Option<&Record>
        ensures known { option_copied result ≡ option_and_then (λ entry. entry) (slice_get self.now slot) }
    {
        self.slots.get(slot as usize)
    }

    /// Whether the record of a key is live.
    #[inline(always)]
    pub(crate) fn is_live(&self, key: Key) -> bool
        ensures known { result ≡ live_in self.now key }
    {
        match self.live.get(key.slot as usize) {
            Some(Some(found)) => found == key,
            _ => false,
        }
    }

    /// Puts a record into a slot.
    pub(crate) fn put(&mut self, slot: u32, entry: Record)
        requires within { slot < length self.old }
        ensures put { self.new ≡ slice_set self.old slot (Some entry) }
    {
        if self.slots.get(slot as usize).is_none() {
            let slots = self.slots.len();
            prove!(self.linked < slots);
            self.linked += 1;
        }
        self.slots.put(slot as usize, entry);
        note(&mut self.live, &self.slots, slot);
    }

    /// Empties a slot.
    pub(crate) fn clear(&mut self, slot: u32)
        ensures cleared { self.new ≡ slice_set self.old slot None }
    {
        if self.slots.take(slot as usize).is_some() {
            self.linked -= 1;
        }
        note(&mut self.live, &self.slots, slot);
    }

    /// Dooms the record in a slot.
    pub(crate) fn doom(&mut self, slot: u32)
        ensures changed { self.new ≡ with_changed_slot doomed_record self.old slot }
    {
        doom_slot(&mut self.slots, slot);
        note(&mut self.live, &self.slots, slot);
    }

    /// Activates the record in a slot, unless it is doomed.
    pub(crate) fn activate(&mut self, slot: u32)
        ensures changed { self.new ≡ with_changed_slot activated_unless_doomed self.old slot }
    {
        activate_slot(&mut self.slots, slot);
        note(&mut self.live, &self.slots, slot);
    }

    /// Hides the record in a slot, or shows it.
    pub(crate) fn set_hidden(&mut self, slot: u32, hidden: bool)
        ensures changed { self.new ≡ with_changed_slot (hidden_record hidden) self.old slot }
    {
        set_hidden_slot(&mut self.slots, slot, hidden);
        note(&mut self.live, &self.slots, slot);
    }

    /// Moves the record in a slot into a directory, under a name.
    pub(crate) fn move_to(&mut self, slot: u32, dir: Key, name: NameBytes)
        ensures changed { self.new ≡ with_changed_slot (moved_record dir name) self.old slot }
    {
        move_slot(&mut self.slots, slot, dir, name);
        note(&mut self.live, &self.slots, slot);
    }
}
