//! Entries of an index, one after another, as they are listed.

ghost use Rattle.std.specs.Prelude.{◌≡◌, ◌∷◌, ◌++◌, ◌≤◌, ◌^◌, ℕ, List, [], length, IfSome, IfNone, IsTrue, ◌↔◌};
ghost use Rattle.kf_core.specs.declared.key.Key.{Key};
ghost use Rattle.kf_index.specs.Chunks.{joined, HaveSome};

use crate::chunk::Chunk;
use crate::name::Name;
use crate::part::Part;
use kf_core::Key;
use std::marker::Model;

/// Entries of an index, one after another, each with its name and its key. They stay in the index, so nothing
/// is copied. In contracts it is the list of these entries.
#[derive(Drop)]
pub struct Listed<'a> {
    /// The first of the entries, all in one chunk.
    part: Part<'a>,
    /// The chunks of the other entries. None of these chunks is empty.
    later: &'a [Chunk],
}

impl<'a> Model for Listed<'a> {
    ghost use Rattle.std.specs.Prelude.{◌≤◌, ◌^◌, ◌++◌, ℕ, List, length};
    ghost use Rattle.kf_core.specs.declared.key.Key.{Key};
    ghost use Rattle.kf_index.specs.Chunks.{joined, HaveSome};

    ghost Value = { List (List ℕ × Key) };

    ghost view = { λ listed. listed.part ++ joined listed.later.now };

    ghost invariant = { λ listed. HaveSome listed.later.now
        × (length (listed.part ++ joined listed.later.now) ≤ 2 ^ 32) };
}

/// How many entries there are in these chunks.
fn length_of(chunks: &[Chunk]) -> usize
    requires few { length (joined chunks.now) ≤ 2 ^ 32 }
    ensures known { result ≡ length (joined chunks.now) }
{
    let mut len = 0;
    for chunk in chunks {
        len += chunk.all().len();
    }
    len
}

impl<'a> Listed<'a> {
    /// The entries of a part, and then those of later chunks.
    #[inline(always)]
    pub(crate) fn new(part: Part<'a>, later: &'a [Chunk]) -> Listed<'a>
        requires some { HaveSome later.now }
        requires few { length (part ++ joined later.now) ≤ 2 ^ 32 }
        ensures made { result ≡ part.entry ++ joined later.now }
    {
        Listed { part, later }
    }

    /// No entries.
    #[inline(always)]
    pub fn none() -> Listed<'static>
        ensures empty { result ≡ [] }
    {
        Listed {
            part: Part::none(),
            later: &[],
        }
    }

    /// How many entries there are.
    pub fn len(&self) -> usize
        ensures known { result ≡ length self.now }
    {
        self.part.len() + length_of(self.later)
    }

    /// Whether there are no entries.
    #[inline(always)]
    pub fn is_empty(&self) -> bool
        ensures known { IsTrue result ↔ (self.now ≡ []) }
    {
        self.part.is_empty() && self.later.is_empty()
    }

    /// The first of the entries, and the others, or None if there are no entries.
    #[inline(always)]
    pub fn split_first(self) -> Option<((&'a Name, Key), Listed<'a>)>
        ensures split { IfSome result (λ split. self.entry ≡ (split.0.0.now, split.0.1) ∷ split.1) }
        ensures empty { IfNone result (self.entry ≡ []) }
    {
        let Listed { part, later } = self;
        match part.split_first() {
            Some((first, part)) => Some((first, Listed { part, later })),
            None => Listed::of_chunks(later),
        }
    }

    /// The first of the entries in these chunks, and the others, or None if there are no entries.
    fn of_chunks(later: &'a [Chunk]) -> Option<((&'a Name, Key), Listed<'a>)>
        requires some { HaveSome later.now }
        requires few { length (joined later.now) ≤ 2 ^ 32 }
        ensures split { IfSome result (λ split. joined later.now ≡ (split.0.0.now, split.0.1) ∷ split.1) }
        ensures empty { IfNone result (joined later.now ≡ []) }
    {
        let (chunk, later) = later.split_first()?;
        let (first, part) = chunk.all().split_first()?;
        Some((first, Listed { part, later }))
    }
}
