//! The search for a free slot.

ghost use Rattle.std.specs.Prelude.{ℕ, ◌≡◌, ◌↔◌, ◌<◌, ◌≤◌, ◌^◌, ◌-◌, ◌+◌, ◌*◌, ◌/◌, length, IfSome, IfNone, IsTrue, None};
ghost use Rattle.kf_core.specs.Safe.{Safe};
ghost use Rattle.kf_world.specs.Bounded.{IsFree, IsNextKey};
ghost use Rattle.kf_world.specs.Counts.{NoneFree};

use super::World;
use super::taken::{BLOCK, block_of, group_of};
use kf_core::{Key, SlotState, lowest_bit, other_bits, without_bit};

/// Whether a slot with this state and this many holds may get another node.
pub(super) fn may_be_given(state: SlotState, holds: usize) -> bool
    ensures { IsTrue result ↔ ((state.marks ≡ None) × (state.generation < 2 ^ 32 - 1) × (holds ≡ 0)) }
{
    holds == 0 && state.marks.is_none() && state.generation < u32::MAX
}

impl World {
    /// Whether the slot is free: a node may be born there.
    fn is_free(&self, slot: u32) -> bool
        ensures { IsTrue result ↔ IsFree self.now.world slot }
    {
        match self.slots.get(slot as usize) {
            Some(state) => may_be_given(state, self.counts_of(slot).holds),
            None => false,
        }
    }

    /// The lowest free slot of a block. This looks only at slots that are not marked.
    ///
    /// Condition: no slot below the block is free.
    fn free_in_block(&self, block: usize) -> Option<u32>
        requires within { block ≤ length self.now.world.slots / 64 }
        requires passed { NoneFree self.now.world (64 * block) }
        ensures free { IfSome result (λ slot. IsFree self.now.world slot) }
        ensures from_one { IfSome result (λ slot. 1 ≤ slot) }
        ensures lowest { IfSome result (λ slot. NoneFree self.now.world slot) }
        ensures none { IfNone result (NoneFree self.now.world (64 * block + 64)) }
    {
        let mut left = other_bits(self.hint.taken.blocks[block]);
        let start = block as u32 * BLOCK;
        while left != 0 {
            let place = lowest_bit(left);
            let slot = start + place;
            if slot >= self.hint.lowest && self.is_free(slot) {
                return Some(slot);
            }
            left = without_bit(left, place);
        }
        None
    }

    /// The lowest free slot of a group. If the group is marked, this returns None at once.
    ///
    /// Condition: no slot below the group is free.
    fn free_in_group(&self, group: usize) -> Option<u32>
        requires within { group ≤ length self.now.world.slots / 4096 }
        requires passed { NoneFree self.now.world (4096 * group) }
        ensures free { IfSome result (λ slot. IsFree self.now.world slot) }
        ensures from_one { IfSome result (λ slot. 1 ≤ slot) }
        ensures lowest { IfSome result (λ slot. NoneFree self.now.world slot) }
        ensures none { IfNone result (NoneFree self.now.world (4096 * group + 4096)) }
    {
        if self.hint.taken.groups[group] {
            return None;
        }
        let start = group * 64;
        let first = block_of(self.hint.lowest).max(start);
        let end = (start + 64).min(block_of(self.slots.len() as u32) + 1);
        for block in first..end {
            if let Some(slot) = self.free_in_block(block) {
                return Some(slot);
            }
        }
        None
    }

    /// The lowest free slot. The root's slot never counts as free.
    pub(super) fn lowest_free(&self) -> Option<u32>
        ensures free { IfSome result (λ slot. IsFree self.now.world slot) }
        ensures from_one { IfSome result (λ slot. 1 ≤ slot) }
        ensures lowest { IfSome result (λ slot. NoneFree self.now.world slot) }
        ensures none { IfNone result ((slot : ℕ) → 1 ≤ slot → ¬ IsFree self.now.world slot) }
        ensures safe { Safe self.now.world }
    {
        for group in group_of(self.hint.lowest)..group_of(self.slots.len() as u32) + 1 {
            if let Some(slot) = self.free_in_group(group) {
                return Some(slot);
            }
        }
        None
    }

    /// Makes the search begin after this slot if it began at this slot, and otherwise at the lowest free
    /// slot.
    pub(super) fn pass_over(&mut self, slot: u32)
        requires taken { ¬ IsFree self.old.world slot }
        ensures { self.new ≡ self.old }
    {
        if slot == self.hint.lowest && slot < u32::MAX {
            self.hint.raise(slot + 1);
            return;
        }
        self.raise_lowest();
    }

    /// Makes the search begin at the lowest free slot, or past the last slot if no slot is free.
    pub(super) fn raise_lowest(&mut self)
        ensures { self.new ≡ self.old }
    {
        let lowest = self.lowest_free().unwrap_or(u32::MAX);
        self.hint.raise(lowest);
    }

    /// The next key of the lowest free slot. The root's slot never counts as free. Returns None if no slot is
    /// free: each has a linked node, is held, or has had all of its generations.
    pub fn free_key(&self) -> Option<Key>
        ensures next { IfSome result (λ key. IsNextKey self.now.world key) }
        ensures none { IfNone result ((slot : ℕ) → 1 ≤ slot → ¬ IsFree self.now.world slot) }
        ensures safe { Safe self.now.world }
    {
        let slot = self.lowest_free()?;
        Some(Key {
            slot,
            generation: self.slots.at(slot as usize).generation + 1,
        })
    }
}
