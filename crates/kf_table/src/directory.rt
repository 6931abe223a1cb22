//! What is kept of a directory beside its record, so that no look-up has to walk all records.

ghost use Rattle.std.specs.Prelude.{◌≡◌, ◌+◌, ◌^◌, ◌<◌, ◌↔◌, IsTrue, IfErr, OnOk, OnErr, if◌then◌else◌};
ghost use Rattle.std.specs.Option.{option_copied};
ghost use Rattle.std.specs.FinMap as map_of;
ghost use Rattle.kf_index.specs.Entries.{AreAbove};
ghost use Rattle.kf_table.specs.Directories.{empty_directory, with_child, without_child};

use kf_core::{Key, Refusal};
use kf_index::{Index, Listed, Name};
use std::alloc::Global;

/// A directory with this many children is large.
const LARGE: usize = 64;

/// The index of a directory's children, and how many of them are directories.
#[derive(Drop)]
pub(crate) struct Directory {
    index: Index,
    subdirs: usize,
}

impl Directory {
    /// Makes a directory without children. It allocates nothing.
    pub(crate) fn new(alloc: Global) -> Directory
        ensures empty { result ≡ empty_directory }
    {
        Directory {
            index: Index::new(alloc),
            subdirs: 0,
        }
    }

    /// The key of the child with this name.
    #[inline(always)]
    pub(crate) fn get(&self, name: &[u8]) -> Option<Key>
        ensures found { result ≡ map_of.get self.now.index name.now }
    {
        self.index.get(name)
    }

    /// Whether it has no children.
    pub(crate) fn is_empty(&self) -> bool
        ensures known { IsTrue result ↔ (self.now ≡ empty_directory) }
    {
        self.index.len() == 0 && self.subdirs == 0
    }

    /// Whether the directory is so large that a search takes longer than a look at the slot of a hint.
    #[inline(always)]
    pub(crate) fn is_large(&self) -> bool {
        self.index.len() >= LARGE
    }

    /// The names and keys of the children above the bound, in byte order of names.
    pub(crate) fn above(&self, bound: Option<&[u8]>) -> Listed<'_>
        ensures listed { AreAbove self.now.index (option_copied bound.entry) result }
    {
        self.index.above(bound)
    }

    /// The number of child directories.
    pub(crate) fn subdirs(&self) -> usize
        ensures known { result ≡ self.now.subdirs }
    {
        self.subdirs
    }

    /// Adds a child. After a refusal everything is as before.
    pub(crate) fn insert(&mut self, name: Name, key: Key, is_subdir: bool) -> Result<(), Refusal>
        requires few { self.old.subdirs + 1 < 2 ^ 64 }
        requires few_names { map_of.len self.old.index < 2 ^ 32 }
        ensures inserted { OnOk result (self.new ≡ with_child name key is_subdir self.old) }
        ensures unchanged { OnErr result (self.new ≡ self.old) }
        ensures refused { IfErr result (λ refusal. refusal
            ≡ (if map_of.contains_key self.old.index name then Refusal.Exists else Refusal.NoMemory)) }
    {
        self.index.insert(name, key)?;
        if is_subdir {
            self.subdirs += 1;
        }
        Ok(())
    }

    /// Removes a child.
    pub(crate) fn remove(&mut self, name: &[u8], is_subdir: bool)
        requires counted { IsTrue is_subdir → 0 < self.old.subdirs }
        ensures removed { self.new ≡ without_child name.now is_subdir self.old }
    {
        self.index.remove(name);
        if is_subdir {
            self.subdirs -= 1;
        }
    }
}
