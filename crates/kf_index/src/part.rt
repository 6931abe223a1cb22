//! Entries of one chunk of an index, one after another.

ghost use Rattle.std.specs.Prelude.{◌≡◌, ◌∷◌, ◌<◌, ◌≤◌, ℕ, List, [], length, drop, slice_index_or, IfSome, IfNone, IsTrue, ◌↔◌};
ghost use Rattle.kf_core.specs.declared.key.Key.{Key};
ghost use Rattle.kf_index.specs.Places.{AreTaken, pairs_at};

use crate::name::Name;
use kf_core::Key;
use std::marker::Model;

/// Entries of a chunk, one after another, each with its name and its key. They stay in the chunk, so nothing
/// is copied. In contracts it is the list of these entries.
#[derive(Drop)]
pub(crate) struct Part<'a> {
    /// The place of each entry, in the order of the entries.
    order: &'a [u32],
    /// An entry at each place, or None if the place is free.
    entries: &'a [Option<(Name, Key)>],
}

impl<'a> Model for Part<'a> {
    ghost use Rattle.std.specs.Prelude.{ℕ, List};
    ghost use Rattle.kf_core.specs.declared.key.Key.{Key};
    ghost use Rattle.kf_index.specs.Places.{AreTaken, pairs_at};

    ghost Value = { List (List ℕ × Key) };

    ghost view = { λ part. pairs_at part.entries.now part.order.now };

    ghost invariant = { λ part. AreTaken part.entries.now part.order.now };
}

/// One of the places in an order. If there is only one place, the order is not read. So in a directory with
/// one name a walk waits for one load less.
#[inline(always)]
fn place_at(entries: &[Option<(Name, Key)>], order: &[u32], at: usize) -> usize
    requires taken { AreTaken entries.now order.now }
    requires within { at < length order.now }
    ensures read { result ≡ slice_index_or order.now at result }
{
    if entries.len() == 1 {
        return 0;
    }
    order[at] as usize
}

impl<'a> Part<'a> {
    /// The entries at these places, in this order.
    #[inline(always)]
    pub(crate) fn new(entries: &'a [Option<(Name, Key)>], order: &'a [u32]) -> Part<'a>
        requires taken { AreTaken entries.now order.now }
        ensures made { result ≡ pairs_at entries.now order.now }
    {
        Part { order, entries }
    }

    /// No entries.
    #[inline(always)]
    pub(crate) fn none() -> Part<'static>
        ensures empty { result ≡ [] }
    {
        Part {
            order: &[],
            entries: &[],
        }
    }

    /// How many entries there are.
    #[inline(always)]
    pub(crate) fn len(&self) -> usize
        ensures known { result ≡ length self.now }
    {
        self.order.len()
    }

    /// Whether there are no entries.
    #[inline(always)]
    pub(crate) fn is_empty(&self) -> bool
        ensures known { IsTrue result ↔ (self.now ≡ []) }
    {
        self.order.is_empty()
    }

    /// The name and the key of one of the entries.
    #[inline(always)]
    pub(crate) fn at(&self, at: usize) -> (&'a Name, Key)
        requires within { at < length self.now }
        ensures read { (other : List ℕ × Key) → (result.0.now, result.1) ≡ slice_index_or self.now at other }
    {
        let (entries, order) = (self.entries, self.order);
        match &entries[place_at(entries, order, at)] {
            Some((name, key)) => (name, *key),
            None => unreachable!(),
        }
    }

    /// The entries from a position in the list on.
    #[inline(always)]
    pub(crate) fn from(self, at: usize) -> Part<'a>
        requires within { at ≤ length self }
        ensures left { result ≡ drop at self.entry }
    {
        Part {
            order: &self.order[at..],
            entries: self.entries,
        }
    }

    /// The first of the entries, and the others, or None if there are no entries.
    #[inline(always)]
    pub(crate) fn split_first(self) -> Option<((&'a Name, Key), Part<'a>)>
        ensures split { IfSome result (λ split. self.entry ≡ (split.0.0.now, split.0.1) ∷ split.1) }
        ensures empty { IfNone result (self.entry ≡ []) }
    {
        if self.is_empty() {
            return None;
        }
        let first = self.at(0);
        Some((first, self.from(1)))
    }
}
