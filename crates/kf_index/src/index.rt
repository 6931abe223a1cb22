//! The sibling index of a directory: its entries in byte order of their names, found by binary search.

ghost use Rattle.std.specs.Prelude.{◌≡◌, ◌<◌, ◌≤◌, ◌^◌, None, IfErr, OnOk, OnErr, if◌then◌else◌};
ghost use Rattle.std.specs.Option.{option_copied};
ghost use Rattle.std.specs.FinMap as map;
ghost use Rattle.kf_index.specs.Entries.{AreAbove};

use crate::chunks::Chunks;
use crate::listed::Listed;
use crate::name::Name;
use kf_core::{Key, Refusal};
use std::alloc::Global;
use std::marker::Model;

/// The entries of one directory: each name once, with the key of its node, in byte order of names.
/// In contracts it is an ordered map from names to keys.
///
/// Only `insert` needs memory, from the allocator that was passed to `new`. `remove` may try to allocate less
/// than there is, and does without if that fails. The entries are in chunks, which are split at about 500
/// entries, and usually only places of one chunk move. A chunk has room for at most four times its entries,
/// and three more, unless the memory for a smaller copy was refused. The kernel also keeps the children of a
/// node in an index, the tree `kn->dir.children`, but orders them by hashes of their names.
#[derive(Drop)]
pub struct Index {
    entries: Chunks,
}

impl Model for Index {
    ghost use Rattle.std.specs.FinMap as map;
    ghost use Rattle.kf_index.specs.Entries.{Entries, entries_code};
    ghost use Rattle.kf_index.specs.Pairs.{IsRising};

    ghost Value = { Entries };

    ghost coded = { entries_code };

    ghost view = { λ index. map.from_entries index.entries };

    ghost invariant = { λ index. IsRising index.entries };
}

impl Index {
    /// An index without entries. It allocates nothing yet.
    pub fn new(alloc: Global) -> Index
        ensures empty { result ≡ map.empty }
    {
        Index {
            entries: Chunks::new(alloc),
        }
    }

    /// The key under this name, or None if there is none (`kernfs_find_ns`).
    #[inline(always)]
    pub fn get(&self, name: &[u8]) -> Option<Key>
        ensures found { result ≡ map.get self.now name.now }
    {
        self.entries.get(name)
    }

    /// How many entries there are.
    #[inline(always)]
    #[tactic(auto, using(crate::proofs::Edited::len_of_rising))]
    pub fn len(&self) -> usize
        ensures known { result ≡ map.len self.now }
    {
        self.entries.len()
    }

    /// How many entries there is memory for. An index without entries has no memory.
    #[tactic(auto, using(crate::proofs::Edited::len_of_rising))]
    pub fn room(&self) -> usize
        ensures enough { map.len self.now ≤ result }
        ensures none { map.len self.now ≡ 0 → result ≡ 0 }
    {
        self.entries.room()
    }

    /// Adds an entry (`kernfs_link_sibling`). It is refused with `Exists` if the name is there, and then with
    /// `NoMemory` if the growth by one entry needs memory and there is none. After a refusal all is as
    /// before, and the name is dropped. So a caller that does this as the last allocation of a command has
    /// nothing to undo.
    ///
    /// Condition: there are fewer than 2^32 entries, since the number of a place takes four bytes.
    pub fn insert(&mut self, name: Name, key: Key) -> Result<(), Refusal>
        requires few { map.len self.old < 2 ^ 32 }
        ensures added { OnOk result (self.new ≡ map.insert self.old name key) }
        ensures absent { OnOk result (map.get self.old name ≡ None) }
        ensures refused { IfErr result (λ refusal.
            refusal ≡ (if map.contains_key self.old name then Refusal.Exists else Refusal.NoMemory)) }
        ensures unchanged { OnErr result (self.new ≡ self.old) }
    {
        self.entries.insert(name, key)
    }

    /// Takes the entry of this name out and returns its key, or None if there is none
    /// (`kernfs_unlink_sibling`). With the last entry, all memory is freed. If few of many entries are left
    /// in a chunk, they move to less memory, or stay if that cannot be allocated.
    pub fn remove(&mut self, name: &[u8]) -> Option<Key>
        ensures found { result ≡ map.get self.old name.now }
        ensures removed { self.new ≡ map.remove self.old name.now }
    {
        self.entries.remove(name)
    }

    /// The entries with names above the bound, or all if there is no bound, in byte order of names
    /// (`kernfs_dir_next_pos`). The bound may be any bytes.
    pub fn above(&self, bound: Option<&[u8]>) -> Listed<'_>
        ensures listed { AreAbove self.now (option_copied bound.entry) result }
    {
        self.entries.above(bound)
    }
}
