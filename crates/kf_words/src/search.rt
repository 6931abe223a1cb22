//! The search for a free slot: by group of blocks, by block, and by slot.
ghost use Rattle.std.specs.Prelude.{◌≡◌, ◌<◌, ◌≤◌, ◌+◌, ◌*◌, ◌/◌, IfSome, length};
ghost use Rattle.kf_core.specs.Limits.{most_slots};
ghost use Rattle.kf_words.specs.Nodes.{FoundFree, Searched, HasNext, master_view};
ghost use Rattle.kf_words.specs.Notes.{history_of};
ghost use Rattle.kf_words.specs.Searches.{AreLinked, AreMarked, SearchesOn};

use crate::blocks::{BLOCK, GROUP, first_unset, is_unlinked, with_bit};
use crate::layout::is_free;
use crate::master_seat::MasterSeat;
use kf_core::{SlotList, SlotState};

impl MasterSeat {
    /// Returns the first slot of a block that is found free. It skips each slot whose bit is set, and loads
    /// hold words only of slots without a node. It sets the bit of each slot in which it finds a node, and of
    /// a slot that is the root's or not in the table.
    ///
    /// Condition: the block is one of those that have bits.
    fn free_in_block(
        &mut self,
        slots: &SlotList<SlotState>,
        full: &mut [u64],
        block: usize,
    ) -> Option<u32>
        requires slots { slots.now ≡ (master_view self.old).slots }
        requires block { block < length full.old }
        requires few { length full.old ≤ most_slots / 64 }
        requires linked { AreLinked full.old slots.now }
        ensures table { self.new.token.table_id ≡ self.old.token.table_id }
        ensures slots { (master_view self.new).slots ≡ (master_view self.old).slots }
        ensures history { history_of self.new.token.me.0.seen ≡ history_of self.old.token.me.0.seen }
        ensures searched { SearchesOn (master_view self.old) (block * 64) (block * 64 + 64) result
            (master_view self.new) }
        ensures next { IfSome result (λ slot. HasNext (master_view self.new) slot) }
        ensures free { IfSome result (λ slot. FoundFree (master_view self.new) slot) }
        ensures linked { AreLinked full.new slots.now }
    {
        let start = block as u32 * BLOCK;
        let mut place = first_unset(full[block], 0);
        while place < BLOCK {
            let slot = start + place;
            if is_unlinked(slots, slot) {
                let found = self.load_hold(slot);
                if is_free(found) {
                    return Some(slot);
                }
            } else {
                full[block] = with_bit(full[block], place);
            }
            place = first_unset(full[block], place + 1);
        }
        None
    }

    /// Returns the first slot of a group of blocks that is found free, block by block. If the group is marked
    /// full, it returns None at once. If it finds no free slot, and all bits of the group's blocks are set at
    /// the end, it marks the group full.
    ///
    /// Condition: the group is one of those that have a mark.
    fn free_in_group(
        &mut self,
        slots: &SlotList<SlotState>,
        full: &mut [u64],
        full_groups: &mut [bool],
        group: usize,
    ) -> Option<u32>
        requires slots { slots.now ≡ (master_view self.old).slots }
        requires group { group < length full_groups.old }
        requires marked { AreMarked full.old full_groups.old slots.now }
        ensures table { self.new.token.table_id ≡ self.old.token.table_id }
        ensures slots { (master_view self.new).slots ≡ (master_view self.old).slots }
        ensures history { history_of self.new.token.me.0.seen ≡ history_of self.old.token.me.0.seen }
        ensures searched { SearchesOn (master_view self.old) (group * 8192) (group * 8192 + 8192) result
            (master_view self.new) }
        ensures next { IfSome result (λ slot. HasNext (master_view self.new) slot) }
        ensures free { IfSome result (λ slot. FoundFree (master_view self.new) slot) }
        ensures marked { AreMarked full.new full_groups.new slots.now }
    {
        if full_groups[group] {
            return None;
        }
        let start = group * GROUP;
        let mut all_full = true;
        for block in start..start + GROUP {
            if let Some(slot) = self.free_in_block(slots, full, block) {
                return Some(slot);
            }
            all_full = all_full && full[block] == u64::MAX;
        }
        full_groups[group] = all_full;
        None
    }

    /// Returns the first slot from 1 up that is found free, group by group. If all slots below it are known
    /// to have nodes, this costs one look for each earlier group, and one for each earlier block in that
    /// slot's group.
    pub(crate) fn find_free(
        &mut self,
        slots: &SlotList<SlotState>,
        full: &mut [u64],
        full_groups: &mut [bool],
    ) -> Option<u32>
        requires slots { slots.now ≡ (master_view self.old).slots }
        requires marked { AreMarked full.old full_groups.old slots.now }
        ensures table { self.new.token.table_id ≡ self.old.token.table_id }
        ensures searched { Searched (master_view self.old) result (master_view self.new) }
        ensures next { IfSome result (λ slot. HasNext (master_view self.new) slot) }
        ensures free { IfSome result (λ slot. FoundFree (master_view self.new) slot) }
        ensures slots { (master_view self.new).slots ≡ (master_view self.old).slots }
        ensures history { history_of self.new.token.me.0.seen ≡ history_of self.old.token.me.0.seen }
        ensures limit { (master_view self.new).limit ≡ (master_view self.old).limit }
        ensures pinning { (master_view self.new).pinning ≡ (master_view self.old).pinning }
        ensures marked { AreMarked full.new full_groups.new slots.now }
    {
        for group in 0..full_groups.len() {
            if let Some(slot) = self.free_in_group(slots, full, full_groups, group) {
                return Some(slot);
            }
        }
        None
    }
}
