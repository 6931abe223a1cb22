//! A map from slots to values, whose memory is written only up to the highest slot that ever had a value.

ghost use Rattle.std.specs.Prelude.{◌≡◌, ◌≤◌, ◌<◌, ◌-◌, ◌++◌, None, Some, IfOk, IfErr, length, replicate, slice_get, slice_set, vec_capacity};
ghost use Rattle.std.specs.Option.{option_and_then, option_copied};
ghost use Rattle.kf_core.specs.declared.refusal.Refusal.TheVariants.{NoMemory};

use crate::refusal::Refusal;
use std::alloc::Global;
use std::marker::Model;

/// A map with a value or none for each slot. Memory for all of them is reserved when the map is made, so
/// later changes allocate nothing. Memory is written only up to the highest slot that ever had a value, so
/// the system provides pages only for that part.
#[derive(Drop)]
pub struct SlotMap<X: Drop> {
    items: Vec<Option<X>>,
    /// The number of slots.
    slots: usize,
}

impl<X: Drop> Model for SlotMap<X> {
    ghost use Rattle.std.specs.Prelude.{List, Option, None, ◌≤◌, ◌-◌, ◌++◌, length, replicate, vec_capacity};

    ghost Value = { List (Option X) };

    ghost view = { λ map. map.items.items ++ replicate (map.slots - length map.items.items) None };

    ghost invariant = { λ map.
        (length map.items.items ≤ map.slots) × (map.slots ≤ vec_capacity map.items) };
}

/// Writes the items up to this slot. There is room for all of them.
#[tactic(auto, using(crate::proofs::SlotLists::one_written))]
fn reach<X>(items: &mut Vec<Option<X>>, slots: usize, slot: usize)
    requires within { slot < slots }
    requires few { length items.old.items ≤ slots }
    requires room { slots ≤ vec_capacity items.old }
    ensures reached { slot < length items.new.items }
    ensures few { length items.new.items ≤ slots }
    ensures room { slots ≤ vec_capacity items.new }
    ensures same { items.new.items ++ replicate (slots - length items.new.items) None
        ≡ items.old.items ++ replicate (slots - length items.old.items) None }
{
    for _ in items.len()..slot + 1 {
        items.push_reserved(None);
    }
}

impl<X: Drop> SlotMap<X> {
    /// A map of this many slots without values. Fails with `NoMemory` if there is no memory for all of them.
    pub fn new(alloc: Global, slots: usize) -> Result<SlotMap<X>, Refusal>
        ensures made { IfOk result (λ map. map ≡ replicate slots None) }
        ensures refused { IfErr result (λ refusal. refusal ≡ NoMemory) }
    {
        match Vec::with_capacity(alloc, slots) {
            Ok(items) => Ok(SlotMap { items, slots }),
            Err(_) => Err(Refusal::NoMemory),
        }
    }

    /// The number of slots.
    #[inline(always)]
    pub fn len(&self) -> usize
        ensures known { result ≡ length self.now }
    {
        self.slots
    }

    /// The value of a slot. Returns None if the slot has no value, or is past the last one.
    #[inline(always)]
    pub fn get(&self, slot: usize) -> Option<&X>
        ensures known { option_copied result ≡ option_and_then (λ item. item) (slice_get self.now slot) }
    {
        match self.items.get(slot) {
            Some(Some(item)) => Some(item),
            _ => None,
        }
    }

    /// Puts a value into a slot. If the slot had a value, the old one is dropped.
    ///
    /// Condition: the slot is not past the last one.
    pub fn put(&mut self, slot: usize, item: X)
        requires within { slot < length self.old }
        ensures put { self.new ≡ slice_set self.old slot (Some item) }
    {
        reach(&mut self.items, self.slots, slot);
        self.items[slot] = Some(item);
    }

    /// Takes the value out of a slot. Returns None if the slot has no value, or is past the last one.
    pub fn take(&mut self, slot: usize) -> Option<X>
        ensures taken { result ≡ option_and_then (λ item. item) (slice_get self.old slot) }
        ensures none { self.new ≡ slice_set self.old slot None }
    {
        if slot < self.items.len() {
            self.items[slot].take()
        } else {
            None
        }
    }
}
