//! What is kept of each directory, by slot, in a box that is made for the directory's first child.

ghost use Rattle.std.specs.Prelude.{◌≡◌, ◌<◌, None, IsTrue, IfSome, IfNone, IfOk, IfErr, OnOk, OnErr, replicate, slice_get, slice_set, slice_index_or};
ghost use Rattle.std.specs.Option.{option_copied, option_and_then};
ghost use Rattle.kf_index.specs.Entries.{AreAbove};
ghost use Rattle.kf_table.specs.Directories.{empty_directory, directory_in, without_child, with_entry, with_record, without_record, subdirs_at, HasRoomFor, MayInsert, MayRemove};

use crate::children::is_directory;
use crate::directory::Directory;
use kf_core::{Key, Record, Refusal, SlotMap};
use kf_index::{Listed, Name};
use std::alloc::Global;
use std::marker::Model;

/// The directories by slot. Each one is in a box, which is made for its first child and dropped with its
/// node. So a slot that never had a child costs only the place of a box. In contracts there is a directory in
/// each slot; if a slot has no box, its directory has no children.
#[derive(Drop)]
pub(crate) struct Directories {
    boxes: SlotMap<Box<Directory>>,
    alloc: Global,
}

impl Model for Directories {
    ghost use Rattle.std.specs.Prelude.{List, map};
    ghost use Rattle.kf_table.specs.declared.directory.Directory.{Directory};
    ghost use Rattle.kf_table.specs.Directories.{directories_code, directory_in};

    ghost Value = { List Directory };

    ghost coded = { directories_code };

    ghost view = { λ directories. map directory_in directories.boxes };
}

/// Takes the box of a slot out of its place, or makes a new one if there is none.
fn box_of(
    boxes: &mut SlotMap<Box<Directory>>,
    alloc: Global,
    slot: u32,
) -> Result<Box<Directory>, Refusal>
    ensures taken { IfOk result (λ kept. kept.value
        ≡ directory_in (option_and_then (λ item. item) (slice_get boxes.old slot))) }
    ensures none { boxes.new ≡ slice_set boxes.old slot None }
    ensures absent { OnErr result (option_and_then (λ item. item) (slice_get boxes.old slot) ≡ None) }
    ensures refused { IfErr result (λ refusal. refusal ≡ Refusal.NoMemory) }
{
    if let Some(kept) = boxes.take(slot as usize) {
        return Ok(kept);
    }
    match Box::new(alloc, Directory::new(alloc)) {
        Ok(kept) => Ok(kept),
        Err(_) => Err(Refusal::NoMemory),
    }
}

impl Directories {
    /// Makes this many directories, without children.
    pub(crate) fn new(alloc: Global, slots: u32) -> Result<Directories, Refusal>
        ensures made { IfOk result (λ directories. directories ≡ replicate slots empty_directory) }
        ensures refused { IfErr result (λ refusal. refusal ≡ Refusal.NoMemory) }
    {
        Ok(Directories {
            boxes: SlotMap::new(alloc, slots as usize)?,
            alloc,
        })
    }

    /// The directory of a slot, or None if it has no children and no box.
    #[inline(always)]
    pub(crate) fn get(&self, slot: u32) -> Option<&Directory>
        ensures kept { IfSome result (λ kept. kept.now ≡ slice_index_or self.now slot empty_directory) }
        ensures none { IfNone result (slice_index_or self.now slot empty_directory ≡ empty_directory) }
    {
        match self.boxes.get(slot as usize) {
            Some(kept) => Some(&**kept),
            None => None,
        }
    }

    /// The names and keys of a directory's children above the bound, in byte order of names.
    pub(crate) fn above(&self, slot: u32, bound: Option<&[u8]>) -> Listed<'_>
        ensures listed { AreAbove (slice_index_or self.now slot empty_directory).index
            (option_copied bound.entry) result }
    {
        let Some(kept) = self.get(slot) else {
            return Listed::none();
        };
        kept.above(bound)
    }

    /// The number of child directories of the directory in a slot.
    pub(crate) fn subdirs(&self, slot: u32) -> usize
        ensures known { result ≡ subdirs_at self.now slot }
    {
        match self.get(slot) {
            Some(kept) => kept.subdirs(),
            None => 0,
        }
    }

    /// Adds a child to the directory of a slot. After a refusal everything is as before.
    pub(crate) fn insert(
        &mut self,
        slot: u32,
        name: &[u8],
        key: Key,
        is_subdir: bool,
    ) -> Result<(), Refusal>
        requires room { HasRoomFor self.old slot name.now }
        ensures inserted { OnOk result (self.new ≡ with_entry slot name.now key is_subdir self.old) }
        ensures unchanged { OnErr result (self.new ≡ self.old) }
        ensures refused { IfErr result (λ refusal. refusal ≡ Refusal.NoMemory) }
    {
        let Ok(name) = Name::of_lawful(self.alloc, name) else {
            return Err(Refusal::NoMemory);
        };
        let mut kept = box_of(&mut self.boxes, self.alloc, slot)?;
        let inserted = kept.insert(name, key, is_subdir);
        self.boxes.put(slot as usize, kept);
        inserted
    }

    /// Removes a child from the directory of a slot.
    pub(crate) fn remove(&mut self, slot: u32, name: &[u8], is_subdir: bool)
        requires counted { IsTrue is_subdir → 0 < subdirs_at self.old slot }
        ensures removed { self.new ≡ slice_set self.old slot
            (without_child name.now is_subdir (slice_index_or self.old slot empty_directory)) }
    {
        if let Some(mut kept) = self.boxes.take(slot as usize) {
            kept.remove(name, is_subdir);
            self.boxes.put(slot as usize, kept);
        }
    }

    /// Drops the box of a slot, unless its directory has a child.
    pub(crate) fn forget(&mut self, slot: u32)
        ensures unchanged { self.new ≡ self.old }
    {
        if let Some(kept) = self.boxes.take(slot as usize) {
            if !kept.is_empty() {
                self.boxes.put(slot as usize, kept);
            }
        }
    }

    /// Adds a record's name to the index of its directory, if the record has one. After a refusal everything
    /// is as before.
    pub(crate) fn insert_record(&mut self, entry: &Record) -> Result<(), Refusal>
        requires lawful { MayInsert self.old entry.now }
        ensures inserted { OnOk result (self.new ≡ with_record entry.now self.old) }
        ensures unchanged { OnErr result (self.new ≡ self.old) }
        ensures refused { IfErr result (λ refusal. refusal ≡ Refusal.NoMemory) }
    {
        match entry.parent {
            Some(parent) => {
                let is_subdir = is_directory(&entry.node);
                self.insert(parent.slot, entry.name.bytes(), entry.key, is_subdir)
            }
            None => Ok(()),
        }
    }

    /// Removes a record's name from the index of its directory, if the record has one.
    pub(crate) fn remove_record(&mut self, entry: Option<&Record>)
        requires counted { MayRemove self.old (option_copied entry) }
        ensures removed { self.new ≡ without_record (option_copied entry.entry) self.old }
    {
        if let Some(entry) = entry {
            if let Some(parent) = entry.parent {
                let is_subdir = is_directory(&entry.node);
                self.remove(parent.slot, entry.name.bytes(), is_subdir);
            }
        }
    }
}
