//! One chunk of an index: entries, one after another, each at a place that it keeps.

ghost use Rattle.std.specs.Prelude.{◌≡◌, ◌≢◌, ◌<◌, ◌≤◌, ◌^◌, ◌/◌, ◌++◌, ℕ, List, [], length, insert, remove, slice_index_or, OnOk, OnErr, IfOk};
ghost use Rattle.kf_core.specs.declared.key.Key.{Key};

use crate::name::Name;
use crate::part::Part;
use crate::places::{free_when_empty, give_back, make_room, move_turned, put_at, take_at, turn};
use kf_core::Key;
use std::alloc::{AllocError, Global};
use std::marker::Model;

/// Entries, one after another. In contracts it is the list of these entries. The length comes first, so that
/// what a search reads is in one cache line.
#[derive(Drop)]
pub(crate) struct Chunk {
    /// How many entries there are.
    len: usize,
    /// Places: first those of the entries, in the order of the entries, then free ones. A place takes only
    /// four bytes, so that less memory moves.
    order: Vec<u32>,
    /// Each entry at a place that it keeps; None if a place is free.
    entries: Vec<Option<(Name, Key)>>,
    /// Whether the last removal or split had no memory for a smaller copy, so that all memory is kept.
    kept_large: bool,
}

impl Model for Chunk {
    ghost use Rattle.std.specs.Prelude.{◌≡◌, ◌≤◌, ◌^◌, ℕ, List, take, vec_capacity, IsFalse};
    ghost use Rattle.kf_core.specs.declared.key.Key.{Key};
    ghost use Rattle.kf_index.specs.Places.{AreInOrder, IsFitting, pairs_at};

    ghost Value = { List (List ℕ × Key) };

    ghost view = { λ all. pairs_at all.entries.items (take all.len all.order.items) };

    ghost invariant = { λ all. AreInOrder all.entries.items all.order.items all.len
        × ((all.len ≤ 2 ^ 32)
        × ((all.len ≡ 0 → (vec_capacity all.entries ≡ 0) × (vec_capacity all.order ≡ 0))
        × (IsFalse all.kept_large → IsFitting all.len (vec_capacity all.entries)
        × IsFitting all.len (vec_capacity all.order)))) };
}

impl Chunk {
    /// A chunk without entries. This allocates nothing yet.
    pub(crate) fn new(alloc: Global) -> Chunk
        ensures empty { result ≡ [] }
    {
        Chunk {
            len: 0,
            order: Vec::new(alloc),
            entries: Vec::new(alloc),
            kept_large: false,
        }
    }

    /// All entries in their order.
    #[inline(always)]
    pub(crate) fn all(&self) -> Part<'_>
        ensures listed { result ≡ self.now }
    {
        Part::new(&self.entries, &self.order[..self.len])
    }

    /// How many entries there is memory for.
    pub(crate) fn room(&self) -> usize
        ensures enough { length self.now ≤ result }
        ensures none { length self.now ≡ 0 → result ≡ 0 }
    {
        self.entries.capacity().max(self.order.capacity())
    }

    /// Adds an entry at this position. The entries from there on move up by one position. It allocates only
    /// if no place is free.
    pub(crate) fn insert(&mut self, at: usize, entry: (Name, Key)) -> Result<(), AllocError>
        requires within { at ≤ length self.old }
        requires few { length self.old < 2 ^ 32 }
        ensures put { OnOk result (self.new ≡ insert self.old at entry) }
        ensures unchanged { OnErr result (self.new ≡ self.old) }
    {
        if make_room(&mut self.entries, &mut self.order, self.len).is_err() {
            free_when_empty(&mut self.entries, &mut self.order, self.len);
            return Err(AllocError);
        }
        put_at(&mut self.entries, &mut self.order, self.len, at, entry);
        self.len += 1;
        Ok(())
    }

    /// Takes an entry out. The entries after it move down by one position. With the last entry, all memory is
    /// freed. If there is room for more than four times the entries that are left, and three more, they move
    /// to memory for about twice as many, or stay if that cannot be allocated.
    pub(crate) fn remove(&mut self, at: usize) -> (Name, Key)
        requires within { at < length self.old }
        ensures value { result ≡ slice_index_or self.old at result }
        ensures taken { self.new ≡ remove self.old at }
    {
        let entry = take_at(&mut self.entries, &mut self.order, self.len, at);
        self.len -= 1;
        self.kept_large = give_back(&mut self.entries, &mut self.order, self.len).is_err();
        entry
    }

    /// Takes the upper half of the entries out, as a new chunk. After a refusal all is as before.
    pub(crate) fn split(&mut self) -> Result<Chunk, AllocError>
        requires some { 2 ≤ length self.old }
        ensures split { IfOk result (λ upper. self.old ≡ self.new ++ upper) }
        ensures halves { IfOk result (λ upper. length upper ≡ length self.old / 2) }
        ensures lower { IfOk result (λ upper. length self.new ≢ 0) }
        ensures upper { IfOk result (λ upper. length upper ≢ 0) }
        ensures unchanged { OnErr result (self.new ≡ self.old) }
    {
        let alloc = *self.entries.allocator();
        let stay = self.len - self.len / 2;
        let mut upper = Vec::with_capacity(alloc, self.len)?;
        let mut upper_order = Vec::with_capacity(alloc, self.len)?;
        let len = self.len - stay;
        move_turned(
            &mut self.entries,
            &mut self.order,
            self.len,
            stay,
            &mut upper,
            &mut upper_order,
        );
        turn(&upper, &mut upper_order);
        self.len = stay;
        self.kept_large = give_back(&mut self.entries, &mut self.order, self.len).is_err();
        Ok(Chunk {
            len,
            order: upper_order,
            entries: upper,
            kept_large: false,
        })
    }
}
