//! Blocks of slots, and groups of blocks. The search for a free slot skips a block or a group if each of its
//! slots is known to have a node.
ghost use Rattle.std.specs.Prelude.{ℕ, ◌≡◌, ◌≢◌, ◌<◌, ◌≤◌, ◌/◌};
ghost use Rattle.std.specs.Int.{bit_at};
ghost use Rattle.kf_words.specs.Nodes.{is_unlinked};

use kf_core::{SlotList, SlotState, lowest_bit, other_bits, with_low_bits};

/// The number of slots in a block, and of bits in its word.
pub(crate) const BLOCK: u32 = 64;

/// The number of blocks in a group. A table with the greatest number of slots has this many groups, too.
pub(crate) const GROUP: usize = 128;

/// The block of a slot.
pub(crate) fn block_of(slot: u32) -> usize
    ensures { result ≡ slot / 64 }
{
    (slot / BLOCK) as usize
}

/// The group that a slot's block is in.
pub(crate) fn group_of(slot: u32) -> usize
    ensures { result ≡ slot / 8192 }
{
    block_of(slot) / GROUP
}

/// Whether a slot of the table has no linked node. It is false for the root's slot, and if the table has no
/// such slot.
pub(crate) fn is_unlinked(slots: &SlotList<SlotState>, slot: u32) -> bool
    ensures { result ≡ is_unlinked slots.now slot }
{
    slot != 0
        && match slots.get(slot as usize) {
            Some(state) => state.marks.is_none(),
            None => false,
        }
}

/// The word with the bit at this place set.
///
/// Condition: the place is at most 63.
pub(crate) fn with_bit(word: u64, place: u32) -> u64
    requires bound { place < 64 }
    ensures set { bit_at result place ≡ 1 }
    ensures kept { (bit : ℕ) → bit ≢ place → bit_at result bit ≡ bit_at word bit }
{
    word | (1 << place)
}

/// The first place, from this one up, at which the word's bit is not set. It is 64 if there is none.
///
/// Condition: the place to begin at is at most 64.
pub(crate) fn first_unset(word: u64, from: u32) -> u32
    requires bound { from ≤ 64 }
    ensures bound { result ≤ 64 }
    ensures from { from ≤ result }
    ensures set { (bit : ℕ) → from ≤ bit → bit < result → bit_at word bit ≡ 1 }
{
    if from == BLOCK {
        return BLOCK;
    }
    let left = other_bits(with_low_bits(word, from));
    if left == 0 { BLOCK } else { lowest_bit(left) }
}
