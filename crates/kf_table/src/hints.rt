//! Hints for look-ups in large directories: the slot in which a name was last put is looked at first.

ghost use Rattle.std.specs.Prelude.{◌≤◌, ◌^◌, length};

use crate::directories::Directories;
use kf_core::Record;
use std::alloc::Global;

/// How many places there are at first.
const FIRST: usize = 256;

/// If at most this many slots were reached, there are four places for each. Then one child in ten has its
/// place taken by another. If more slots were reached, there are two places for each.
const FEW: usize = 4096;

/// An odd number whose multiples are spread (the kernel's `GOLDEN_RATIO_64`).
const SPREAD: u64 = 0x61C8_8646_80B5_83EB;

/// The slots in which records were last put, by a hash of the directory's slot and the record's name. To a
/// walk they are what the kernel's table of names is (`dentry_hashtable`). A hint is never trusted: code that
/// reads a slot here checks whether the record there is the one that it wants, and searches the index if it
/// is not. So a record that is removed leaves its slot here, and no clause says what is read. Hints serve
/// large directories; in others a search takes no longer. Nothing is allocated until a large directory gets a
/// child. From then on the memory grows with the slots that were reached. If it cannot grow, the hints go on
/// with the places that they have.
#[derive(Drop)]
pub(crate) struct Hints {
    slots: Vec<u32>,
}

/// Mixes some more bits into a hash.
#[inline(always)]
fn mixed(hash: u64, bits: u64) -> u64 {
    (hash.rotate_left(5) ^ bits).wrapping_mul(SPREAD)
}

/// Hashes a name, by eight bytes at a time, then four, then one.
#[inline(always)]
fn hash_of(name: &[u8]) -> u64 {
    let mut hash = 0;
    let mut rest = name;
    while let Some((word, more)) = rest.split_first_chunk::<8>() {
        hash = mixed(hash, u64::from_le_bytes(*word));
        rest = more;
    }
    if let Some((half, more)) = rest.split_first_chunk::<4>() {
        hash = mixed(hash, u32::from_le_bytes(*half) as u64);
        rest = more;
    }
    for byte in rest {
        hash = mixed(hash, *byte as u64);
    }
    hash
}

/// How many places there should be once this many slots were reached.
fn wanted(slots: usize) -> usize
    requires few { slots ≤ 2 ^ 32 }
    ensures few { result ≤ 2 ^ 33 }
{
    if slots <= FEW { slots * 4 } else { slots * 2 }
}

/// Doubles the number of places, or makes the first ones if there are none. If the memory is refused,
/// everything is as before. Each hint is copied to both places that its old place becomes, so it is found as
/// before.
fn double(slots: &mut Vec<u32>)
    requires few { length slots.old.items ≤ 2 ^ 33 }
{
    let before = slots.len();
    if slots.resize(FIRST.max(before * 2), 0).is_err() {
        return;
    }
    let mut at = before;
    while at > 0 {
        at -= 1;
        let hint = slots[at];
        slots[at * 2] = hint;
        slots[at * 2 + 1] = hint;
    }
}

impl Hints {
    /// Makes hints without places. It allocates nothing.
    pub(crate) fn new(alloc: Global) -> Hints {
        Hints {
            slots: Vec::new(alloc),
        }
    }

    /// The place for a name in the directory in this slot. The name is hashed first, by itself, so a walk can
    /// begin with that before it knows the slot.
    #[inline(always)]
    fn place(&self, dir: u32, name: &[u8]) -> usize {
        let hash = mixed(hash_of(name), dir as u64);
        ((hash >> 32).wrapping_mul(self.slots.len() as u64) >> 32) as usize
    }

    /// The slot to look at first.
    #[inline(always)]
    pub(crate) fn get(&self, dir: u32, name: &[u8]) -> u32 {
        match self.slots.get(self.place(dir, name)) {
            Some(slot) => *slot,
            None => 0,
        }
    }

    /// Stores this slot as the hint for this name, if the name's directory is a large one. Then `get` returns
    /// the slot for the name, until another name takes the place. If there is no memory for any place,
    /// nothing is stored.
    pub(crate) fn put(&mut self, directories: &Directories, dir: u32, name: &[u8], slot: u32) {
        let Some(kept) = directories.get(dir) else {
            return;
        };
        if !kept.is_large() {
            return;
        }
        if self.slots.len() < wanted(slot as usize + 1) {
            double(&mut self.slots);
        }
        let place = self.place(dir, name);
        if let Some(hint) = self.slots.get_mut(place) {
            *hint = slot;
        }
    }

    /// The same for a record, if it has a directory.
    pub(crate) fn put_record(&mut self, directories: &Directories, entry: &Record) {
        if let Some(parent) = entry.parent {
            self.put(directories, parent.slot, entry.name.bytes(), entry.key.slot);
        }
    }
}
