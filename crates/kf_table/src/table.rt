//! The records of a tree by slot.

ghost use Rattle.std.specs.Prelude.{◌≡◌, ◌≤◌, ◌<◌, ◌↔◌, Some, None, true, false, IsTrue, IfSome, IfOk, IfErr, OnOk, OnErr, length, slice_get, slice_set, count_by, is_some};
ghost use Rattle.std.specs.Option.{option_copied, option_map, option_and_then};
ghost use Rattle.kf_core.specs.Limits.{most_slots};
ghost use Rattle.kf_core.specs.declared.key.Key.{Key};
ghost use Rattle.kf_core.specs.Tree.{IsIn, record_at, parent_of, is_linked, in_subtree};
ghost use Rattle.kf_core.specs.Lawful.{Lawful};
ghost use Rattle.kf_core.specs.Commands.{root_alone, doomed_record, hidden_record, moved_record};
ghost use Rattle.kf_table.specs.Children.{has_child, is_there_already, child, subdirs};
ghost use Rattle.kf_table.specs.Live.{live_in};
ghost use Rattle.kf_table.specs.Next.{AreNext};
ghost use Rattle.kf_table.specs.Changes.{with_changed_slot, activated_unless_doomed, is_undoomed};

use crate::children::{is_child, is_directory_record};
use crate::directories::Directories;
use crate::hints::Hints;
use crate::records::Records;
use kf_core::{Key, NameBytes, Node, NodeFlags, Record, Refusal};
use kf_index::Listed;
use std::alloc::Global;
use std::marker::Model;

/// The records of a tree by slot, and beside each the index of its children and the number of its child
/// directories. In contracts it is the tree.
#[derive(Drop)]
pub struct Table {
    records: Records,
    directories: Directories,
    hints: Hints,
}

impl Model for Table {
    ghost use Rattle.std.specs.Prelude.{List, Option};
    ghost use Rattle.kf_core.specs.declared.records.Record.{Record};
    ghost use Rattle.kf_table.specs.Directories.{AreKept};

    ghost Value = { List (Option Record) };

    ghost view = { λ table. table.records };

    ghost invariant = { λ table. AreKept table.records table.directories };
}

impl Table {
    /// Makes a table with this many slots that has only the root.
    ///
    /// Condition: the root's slot is below `slots`.
    ///
    /// Refusal: NoMemory.
    pub fn new(alloc: Global, slots: u32, root: Key) -> Result<Table, Refusal>
        requires in_table { root.slot < slots }
        ensures made { IfOk result (λ table. table ≡ root_alone slots root) }
        ensures refused { IfErr result (λ refusal. refusal ≡ Refusal.NoMemory) }
    {
        let mut records = Records::new(alloc, slots)?;
        let top = Record {
            key: root,
            parent: None,
            marks: NodeFlags {
                activated: true,
                doomed: false,
            },
            hidden: false,
            node: Node::Dir,
            name: NameBytes::empty(alloc),
        };
        records.put(root.slot, top);
        let directories = Directories::new(alloc, slots)?;
        Ok(Table {
            records,
            directories,
            hints: Hints::new(alloc),
        })
    }

    /// The number of slots.
    pub fn len(&self) -> usize
        ensures known { result ≡ length self.now }
    {
        self.records.len()
    }

    /// How many records there are.
    #[inline(always)]
    pub fn linked(&self) -> usize
        ensures known { result ≡ count_by is_some self.now }
    {
        self.records.linked()
    }

    /// The record in a slot, if there is one.
    #[inline(always)]
    pub fn in_slot(&self, slot: u32) -> Option<&Record>
        ensures known { option_copied result ≡ option_and_then (λ entry. entry) (slice_get self.now slot) }
    {
        self.records.get(slot)
    }

    /// Whether the table has this slot, and the slot has no record.
    pub fn is_vacant(&self, slot: u32) -> bool
        ensures known { IsTrue result ↔ (slice_get self.now slot ≡ Some None) }
    {
        match self.in_slot(slot) {
            Some(_) => false,
            None => (slot as usize) < self.len(),
        }
    }

    /// The record of a key, if it is linked.
    #[inline(always)]
    pub fn record(&self, key: Key) -> Option<&Record>
        ensures known { option_copied result ≡ record_at self.now key }
    {
        match self.records.get(key.slot) {
            Some(found) => { if found.key == key { Some(found) } else { None } }
            None => None,
        }
    }

    /// Whether the record of a key is live.
    #[inline(always)]
    pub fn is_live(&self, key: Key) -> bool
        ensures known { result ≡ live_in self.now key }
    {
        self.records.is_live(key)
    }

    /// The key of the directory that a key's record is in, if there is one.
    pub fn parent(&self, key: Key) -> Option<Key>
        ensures known { result ≡ parent_of self.now key }
    {
        match self.record(key) {
            Some(found) => found.parent,
            None => None,
        }
    }

    /// Whether the parents, from the key up, lead to `top`. They do if the key is `top` itself.
    #[tactic(auto, using(crate::proofs::Climbing::one_step))]
    pub fn is_below(&self, top: Key, key: Key) -> bool
        ensures known { result ≡ in_subtree self.now top key }
    {
        let mut current = key;
        'up: for _ in 0..self.len() {
            if current == top {
                return true;
            }
            match self.parent(current) {
                Some(parent) => current = parent,
                None => return false,
            }
        }
        current == top
    }

    /// The record with this name in this directory.
    ///
    /// Condition: the table is lawful, as the table of each tree is.
    #[inline(always)]
    pub fn child(&self, dir: Key, name: &[u8]) -> Option<&Record>
        requires lawful { (root : Key) × Lawful self.now root }
        ensures found { option_copied result ≡ child self.now dir name.now }
    {
        self.record(dir)?;
        let (_, found) = self.child_of(dir, name)?;
        Some(found)
    }

    /// The record with this name in a directory, and its key, if the hint for the name leads to it.
    #[inline(always)]
    fn hinted(&self, dir: Key, name: &[u8]) -> Option<(Key, &Record)>
        requires lawful { (root : Key) × Lawful self.now root }
        ensures found { IfSome result (λ found. Some found.1.now ≡ child self.now dir name.now) }
        ensures keyed { IfSome result (λ found. found.1.now.key ≡ found.0) }
        ensures inside { IfSome result (λ found. IsIn self.now found.1.now) }
    {
        let slot = self.hints.get(dir.slot, name);
        let found = self.in_slot(slot)?;
        if !is_child(found, dir, name) {
            return None;
        }
        let generation = found.key.generation;
        Some((Key { slot, generation }, found))
    }

    /// The record with this name in a linked directory, and its key. The slot is known before the record is
    /// read, usually without a search.
    ///
    /// Conditions: the table is lawful, and the directory is linked.
    #[inline(always)]
    pub fn child_of(&self, dir: Key, name: &[u8]) -> Option<(Key, &Record)>
        requires lawful { (root : Key) × Lawful self.now root }
        requires linked { IsTrue (is_linked self.now dir) }
        ensures found { option_map (λ found. found.1.now) result ≡ child self.now dir name.now }
        ensures keyed { IfSome result (λ found. found.1.now.key ≡ found.0) }
        ensures inside { IfSome result (λ found. IsIn self.now found.1.now) }
    {
        let kept = self.directories.get(dir.slot)?;
        if kept.is_large() {
            if let Some(found) = self.hinted(dir, name) {
                return Some(found);
            }
        }
        let key = kept.get(name)?;
        match self.in_slot(key.slot) {
            Some(found) => Some((key, found)),
            None => None,
        }
    }

    /// The names and keys of the children above the bound, or of all children if there is no bound, in byte
    /// order of names.
    ///
    /// Condition: the table is lawful.
    pub fn children_above(&self, dir: Key, bound: Option<&[u8]>) -> Listed<'_>
        requires lawful { (root : Key) × Lawful self.now root }
        ensures listed { AreNext self.now dir (option_copied bound.entry) result }
    {
        let Some(_) = self.record(dir) else {
            return Listed::none();
        };
        self.directories.above(dir.slot, bound)
    }

    /// The names and keys of all children of a node, in byte order of names. A node that is not a directory
    /// has none, and then no index is searched.
    ///
    /// Condition: the table is lawful.
    #[inline]
    pub fn children(&self, dir: Key) -> Listed<'_>
        requires lawful { (root : Key) × Lawful self.now root }
        ensures listed { AreNext self.now dir None result }
    {
        if !is_directory_record(self.record(dir)) {
            return Listed::none();
        }
        self.children_above(dir, None)
    }

    /// Whether a directory has a linked child.
    ///
    /// Condition: the table is lawful.
    pub fn has_child(&self, dir: Key) -> bool
        requires lawful { (root : Key) × Lawful self.now root }
        ensures known { result ≡ has_child self.now dir }
    {
        !self.children(dir).is_empty()
    }

    /// How many child directories a directory has.
    ///
    /// Conditions: the table is lawful, and has at most [`kf_core::MOST_SLOTS`] slots.
    pub fn subdirs(&self, dir: Key) -> u32
        requires lawful { (root : Key) × Lawful self.now root }
        requires few { length self.now ≤ most_slots }
        ensures value { result ≡ subdirs self.now dir }
        ensures few { result ≤ most_slots }
    {
        match self.record(dir) {
            Some(_) => self.directories.subdirs(dir.slot) as u32,
            None => 0,
        }
    }

    /// Puts a new record into its slot, and its name into the index of its directory.
    ///
    /// Conditions: the slot has no record, and with the new one the table is lawful.
    ///
    /// Refusal: NoMemory. Then the table is as before.
    pub fn add(&mut self, entry: Record) -> Result<(), Refusal>
        requires vacant { slice_get self.old entry.key.slot ≡ Some None }
        requires lawful_after { (root : Key) × Lawful (slice_set self.old entry.key.slot (Some entry)) root }
        ensures added { OnOk result (self.new ≡ slice_set self.old entry.key.slot (Some entry)) }
        ensures unchanged { OnErr result (self.new ≡ self.old) }
        ensures refused { IfErr result (λ refusal. refusal ≡ Refusal.NoMemory) }
    {
        self.directories.insert_record(&entry)?;
        self.hints.put_record(&self.directories, &entry);
        self.records.put(entry.key.slot, entry);
        Ok(())
    }

    /// Removes the record of a linked key, and removes its name from the index of its directory.
    ///
    /// Condition: the key is linked.
    pub fn take_out(&mut self, key: Key)
        requires linked { IsTrue (is_linked self.old key) }
        ensures taken { self.new ≡ slice_set self.old key.slot None }
    {
        self.directories.remove_record(self.records.get(key.slot));
        self.directories.forget(key.slot);
        self.records.clear(key.slot);
    }

    /// Whether the slot has a record that is not doomed.
    pub fn is_undoomed(&self, slot: u32) -> bool
        ensures known { result ≡ is_undoomed (slice_get self.now slot) }
    {
        let Some(found) = self.in_slot(slot) else {
            return false;
        };
        !found.marks.doomed
    }

    /// Dooms the record in a slot, and returns whether there was a record there that was not doomed before.
    pub fn doom(&mut self, slot: u32) -> bool
        ensures changed { self.new ≡ with_changed_slot doomed_record self.old slot }
        ensures newly { result ≡ is_undoomed (slice_get self.old slot) }
    {
        let newly = self.is_undoomed(slot);
        self.records.doom(slot);
        newly
    }

    /// Hides the record in a slot.
    pub fn hide(&mut self, slot: u32)
        ensures changed { self.new ≡ with_changed_slot (hidden_record true) self.old slot }
    {
        self.records.set_hidden(slot, true);
    }

    /// Shows the record in a slot again.
    pub fn show(&mut self, slot: u32)
        ensures changed { self.new ≡ with_changed_slot (hidden_record false) self.old slot }
    {
        self.records.set_hidden(slot, false);
    }

    /// Activates the record in a slot, unless it is doomed.
    pub fn activate(&mut self, slot: u32)
        ensures changed { self.new ≡ with_changed_slot activated_unless_doomed self.old slot }
    {
        self.records.activate(slot);
    }

    /// Moves the record of a linked key into a directory, under a name, and its entry into the index of that
    /// directory.
    ///
    /// Conditions: the key is linked, the table is lawful and stays lawful, and the record is not in this
    /// place already.
    ///
    /// Refusal: NoMemory. Then the table is as before.
    pub fn move_to(&mut self, key: Key, dir: Key, name: NameBytes) -> Result<(), Refusal>
        requires linked { IsTrue (is_linked self.old key) }
        requires lawful { (root : Key) × Lawful self.old root }
        requires lawful_after { (root : Key)
            × Lawful (with_changed_slot (moved_record dir name) self.old key.slot) root }
        requires elsewhere { is_there_already self.old key dir name ≡ false }
        ensures moved { OnOk result (self.new ≡ with_changed_slot (moved_record dir name) self.old key.slot) }
        ensures unchanged { OnErr result (self.new ≡ self.old) }
        ensures refused { IfErr result (λ refusal. refusal ≡ Refusal.NoMemory) }
    {
        let is_subdir = is_directory_record(self.record(key));
        self.directories
            .insert(dir.slot, name.bytes(), key, is_subdir)?;
        self.directories.remove_record(self.records.get(key.slot));
        self.hints
            .put(&self.directories, dir.slot, name.bytes(), key.slot);
        self.records.move_to(key.slot, dir, name);
        Ok(())
    }
}
