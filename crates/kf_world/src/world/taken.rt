//! Marks of slots that are known to be taken: the search for a free slot passes over them.

ghost use Rattle.std.specs.Prelude.{ℕ, ◌≡◌, ◌<◌, ◌≤◌, ◌/◌, ◌⊎◌, length, slice_get, slice_index, Some, true, IfOk, IfErr};
ghost use Rattle.std.specs.Int.{bit_at};
ghost use Rattle.kf_core.specs.declared.refusal.Refusal.TheVariants.{NoMemory};
ghost use Rattle.kf_world.specs.Hints.{AsMany, Covers, IsMarked};

use kf_core::{Refusal, with_low_bits, without_bit};
use std::alloc::Global;

/// This many slots make a block, and this many blocks make a group.
pub(super) const BLOCK: u32 = 64;

/// The marks: for each block a word with a bit for each of its slots, and for each group of blocks a mark. A
/// slot is marked if its bit is set, or if its group is marked.
#[derive(Drop)]
pub(crate) struct Taken {
    pub(super) blocks: Vec<u64>,
    pub(super) groups: Vec<bool>,
}

/// The number of the block that a slot is in.
pub(super) fn block_of(slot: u32) -> usize
    ensures { result ≡ slot / 64 }
{
    (slot / BLOCK) as usize
}

/// The number of the group that a slot is in.
pub(super) fn group_of(slot: u32) -> usize
    ensures { result ≡ slot / 4096 }
{
    (slot / (BLOCK * BLOCK)) as usize
}

/// Marks the groups from `first` up to but not including `end`, as far as they exist.
fn mark_groups(groups: &mut Vec<bool>, first: usize, end: usize)
    ensures marked { (place : ℕ) → slice_get groups.new.items place ≡ Some true →
        ((first ≤ place) × (place < end)) ⊎ (slice_get groups.old.items place ≡ Some true) }
    ensures each { (place : ℕ) → first ≤ place → place < end → place < length groups.old.items →
        slice_get groups.new.items place ≡ Some true }
    ensures kept { (place : ℕ) → slice_get groups.old.items place ≡ Some true →
        slice_get groups.new.items place ≡ Some true }
    ensures as_many { length groups.new.items ≡ length groups.old.items }
{
    for place in first..end.min(groups.len()) {
        groups[place] = true;
    }
}

/// Marks each slot of the blocks from `first` up to but not including `end`, as far as they exist.
fn mark_blocks(blocks: &mut Vec<u64>, first: usize, end: usize)
    ensures marked { (place bit : ℕ) → bit_at (slice_index blocks.new.items place) bit ≡ 1 →
        ((first ≤ place) × (place < end)) ⊎ (bit_at (slice_index blocks.old.items place) bit ≡ 1) }
    ensures each { (place bit : ℕ) → first ≤ place → place < end → place < length blocks.old.items →
        bit < 64 → bit_at (slice_index blocks.new.items place) bit ≡ 1 }
    ensures kept { (place bit : ℕ) → bit < 64 → bit_at (slice_index blocks.old.items place) bit ≡ 1 →
        bit_at (slice_index blocks.new.items place) bit ≡ 1 }
    ensures as_many { length blocks.new.items ≡ length blocks.old.items }
{
    for place in first..end.min(blocks.len()) {
        blocks[place] = u64::MAX;
    }
}

/// Marks each slot of the blocks from `first` up to but not including `end`, except in the groups between
/// the group of `first` and the group of `end`.
fn mark_ends(blocks: &mut Vec<u64>, first: usize, end: usize)
    ensures marked { (place bit : ℕ) → bit_at (slice_index blocks.new.items place) bit ≡ 1 →
        ((first ≤ place) × (place < end)) ⊎ (bit_at (slice_index blocks.old.items place) bit ≡ 1) }
    ensures last { (place bit : ℕ) → first ≤ place → place < end → place / 64 ≡ end / 64 →
        place < length blocks.old.items → bit < 64 →
        bit_at (slice_index blocks.new.items place) bit ≡ 1 }
    ensures as_many { length blocks.new.items ≡ length blocks.old.items }
{
    if first / 64 < end / 64 {
        mark_blocks(blocks, first, (first / 64 + 1) * 64);
        mark_blocks(blocks, end / 64 * 64, end);
    } else {
        mark_blocks(blocks, first, end);
    }
}

/// Marks the first `count` slots of a block, if the block exists.
fn mark_low_slots(blocks: &mut Vec<u64>, block: usize, count: u32)
    requires few { count < 64 }
    ensures marked { (place bit : ℕ) → bit_at (slice_index blocks.new.items place) bit ≡ 1 →
        ((place ≡ block) × (bit < count)) ⊎ (bit_at (slice_index blocks.old.items place) bit ≡ 1) }
    ensures each { (bit : ℕ) → bit < count → block < length blocks.old.items →
        bit_at (slice_index blocks.new.items block) bit ≡ 1 }
    ensures kept { (place bit : ℕ) → bit_at (slice_index blocks.old.items place) bit ≡ 1 →
        bit_at (slice_index blocks.new.items place) bit ≡ 1 }
    ensures as_many { length blocks.new.items ≡ length blocks.old.items }
{
    if block < blocks.len() {
        blocks[block] = with_low_bits(blocks[block], count);
    }
}

impl Taken {
    /// Marks for this many slots. None is set.
    pub(super) fn new(alloc: Global, slots: u32) -> Result<Taken, Refusal>
        ensures none { IfOk result (λ taken. (slot : ℕ) → ¬ IsMarked taken slot) }
        ensures covered { IfOk result (λ taken. Covers taken slots) }
        ensures refused { IfErr result (λ refusal. refusal ≡ NoMemory) }
    {
        Ok(Taken {
            blocks: vec![in alloc; 0u64; block_of(slots) + 1]?,
            groups: vec![in alloc; false; group_of(slots) + 1]?,
        })
    }

    /// Clears the bit of a slot and the mark of its group, so that the search looks at this slot. The other
    /// slots of the group keep their bits.
    pub(super) fn unmark(&mut self, slot: u32)
        requires covered { Covers self.old slot }
        ensures unmarked { ¬ IsMarked self.new slot }
        ensures others { (other : ℕ) → IsMarked self.new other → IsMarked self.old other }
        ensures as_many { AsMany self.old self.new }
    {
        let block = block_of(slot);
        self.blocks[block] = without_bit(self.blocks[block], slot % BLOCK);
        self.groups[group_of(slot)] = false;
    }

    /// Marks each slot from `from` up to but not including `to`, so that the search passes over it. In the
    /// group of `to`, slots are marked by their bits. The groups before that one, from the group of `from`
    /// on, are marked as a whole.
    pub(super) fn mark_between(&mut self, from: u32, to: u32)
        ensures passed { (slot : ℕ) → IsMarked self.new slot → (slot < to) ⊎ IsMarked self.old slot }
        ensures groups { (slot : ℕ) → from ≤ slot → slot / 4096 < to / 4096 → Covers self.old slot →
            slice_get self.new.groups.items (slot / 4096) ≡ Some true }
        ensures slots { (slot : ℕ) → from ≤ slot → slot < to → Covers self.old slot →
            IsMarked self.new slot }
        ensures as_many { AsMany self.old self.new }
    {
        mark_groups(&mut self.groups, group_of(from), group_of(to));
        mark_ends(&mut self.blocks, block_of(from), block_of(to));
        mark_low_slots(&mut self.blocks, block_of(to), to % BLOCK);
    }
}
