//! What a state says: its commands, paths and listings, and what is reported of a node. None of these
//! functions changes anything.

ghost use Rattle.std.specs.Prelude.{◌≡◌, ◌↔◌, IfOk, IfErr, IsTrue, slice_get, MatchResult, None, Some, Ok, Err, true, false, not, length, IfSome, List, ◌+◌};
ghost use Rattle.std.specs.Option.{option_copied, option_map, ok_or};
ghost use Rattle.kf_core.specs.declared.command.Command.{Command};
ghost use Rattle.kf_core.specs.Tree.{record_at, is_linked, in_subtree};
ghost use Rattle.kf_core.specs.PostOrder.{IsPostOrder};
ghost use Rattle.kf_table.specs.Children.{is_there_already};
ghost use Rattle.kf_tree.specs.Causes.{Refuses, create_fault, create_cause, linked_cause, doom_cause, unlink_cause, list_cause, rename_cause, text_cause};
ghost use Rattle.kf_tree.specs.Canonical.{IsCanonical, doomed_inside_count};
ghost use Rattle.kf_tree.specs.Ends.{EndsWith};
ghost use Rattle.kf_tree.specs.Links.{HasLinkText};
ghost use Rattle.kf_tree.specs.Listing.{IsListing};
ghost use Rattle.kf_tree.specs.Paths.{found, walked, seen, walked_parent};
ghost use Rattle.kf_tree.specs.Stat.{stat_of};
ghost use Rattle.kf_tree.specs.Subtrees.{key_in, linked_count, owed_count};
ghost use Rattle.kf_tree.specs.TreeLogs.{IsKept};
ghost use Rattle.kf_tree.specs.Ways.{IsPathOf};

use super::State;
use crate::causes::{
    check_create, check_doom, check_linked, check_list, check_rename, check_text, check_unlink,
    create_fault,
};
use crate::find::find_in;
use crate::links::{link_text, path_of};
use crate::listing::{Names, copy_names};
use crate::paths::{walk, walk_parent};
use crate::post_order::post_order;
use crate::stat::{Stat, stat_of};
use kf_core::{Command, Key, Node, Record, Refusal};
use kf_index::Name;

impl State {
    /// The root's key. The clause `kept` says what holds of every state: its tree is lawful, and is the
    /// replay of its commands.
    pub fn root(&self) -> Key
        ensures known { result ≡ self.now.root }
        ensures kept { IsKept self.now }
    {
        self.root
    }

    /// The stored commands, in the order in which they were accepted. If there was a [`State::compact`], the
    /// canonical list that the last one made comes first, and then every command accepted since.
    pub fn commands(&self) -> &[Command]
        ensures listed { result.now ≡ self.now.commands }
        ensures kept { IsKept self.now }
    {
        self.commands.as_slice()
    }

    /// How many commands are stored. Each accepted one adds one, and only [`State::compact`] takes any away.
    pub fn stored(&self) -> usize
        ensures known { result ≡ length self.now.commands }
    {
        self.commands.len()
    }

    /// The most commands that would be stored after [`State::compact`]: one for each linked node except the
    /// root, one for each doomed node, and one for each hidden node. The exact number is lower by the number
    /// of nodes that are doomed in a doomed directory, since the doom of the top covers them. This takes
    /// constant time.
    pub fn compacted(&self) -> usize
        ensures known { result + 1 ≡ linked_count self.now.tree + owed_count self.now.tree }
        ensures canonical { (commands : List Command) → IsCanonical self.now.tree commands →
            length commands + doomed_inside_count self.now.tree ≡ result }
    {
        let records = self.table.linked();
        records - 1 + self.owed
    }

    /// Whether the slot exists and has no record. [`State::create`] requires this of the slot of the next
    /// key.
    pub fn is_vacant(&self, slot: u32) -> bool
        ensures known { IsTrue result ↔ (slice_get self.now.tree slot ≡ Some None) }
    {
        self.table.is_vacant(slot)
    }

    /// The number of slots. The slot of each linked node is below this number.
    pub fn slots(&self) -> u32
        ensures known { result ≡ length self.now.tree }
    {
        self.table.len() as u32
    }

    /// The key of the linked node in a slot, if there is one.
    pub fn key_in(&self, slot: u32) -> Option<Key>
        ensures known { result ≡ key_in self.now.tree slot }
        ensures here { IfSome result (λ key. key.slot ≡ slot) }
    {
        match self.table.in_slot(slot) {
            Some(entry) => Some(entry.key),
            None => None,
        }
    }

    /// Whether the way up from the key, parent by parent, meets `top`. It does if the key is `top` itself.
    /// This allocates nothing, and takes one step for each directory on the way up.
    pub fn is_below(&self, top: Key, key: Key) -> bool
        ensures known { result ≡ in_subtree self.now.tree top key }
    {
        self.table.is_below(top, key)
    }

    /// Whether [`State::create`] would accept this new record now, or why it would refuse it, lack of memory
    /// aside. This allocates nothing.
    pub fn may_create(
        &self,
        parent: Key,
        name: &[u8],
        node: Node,
        next: Option<Key>,
    ) -> Result<(), Refusal>
        ensures checked { MatchResult result
            (λ _. create_cause self.now.tree self.now.root parent name.now node next ≡ None)
            (λ refusal. create_cause self.now.tree self.now.root parent name.now node next ≡ Some refusal) }
    {
        check_create(&self.table, self.root, parent, name, &node, next)?;
        Ok(())
    }

    /// Why [`State::create`] would refuse this new record now, whichever key is next: the first of its
    /// refusals except `NoSpace` and `NoMemory`, or None. A caller can ask this before it searches for a key,
    /// and then make the record with [`State::create_under`]. This allocates nothing.
    pub fn create_fault(&self, parent: Key, name: &[u8], node: Node) -> Option<Refusal>
        ensures first { result ≡ create_fault self.now.tree self.now.root parent name.now node }
    {
        create_fault(&self.table, self.root, parent, name, &node)
    }

    /// Whether [`State::doom`] would accept this key now, or why it would refuse it, lack of memory aside:
    /// `NoEntry` (it is not linked), then `Invalid` (it is the root). This allocates nothing. The clause
    /// `kept` says what holds of every state.
    pub fn may_doom(&self, key: Key) -> Result<(), Refusal>
        ensures checked { MatchResult result
            (λ _. doom_cause self.now.tree self.now.root key ≡ None)
            (λ refusal. doom_cause self.now.tree self.now.root key ≡ Some refusal) }
        ensures kept { IsKept self.now }
    {
        check_doom(&self.table, self.root, key)
    }

    /// Whether [`State::rename`] would move the node now, or why it would refuse, lack of memory aside.
    /// Returns false if the node is in that directory under that name already. This allocates nothing.
    pub fn may_rename(&self, key: Key, dir: Key, name: &[u8]) -> Result<bool, Refusal>
        ensures checked { MatchResult result
            (λ moves. (rename_cause self.now.tree self.now.root key dir name.now ≡ None)
            × (moves ≡ not (is_there_already self.now.tree key dir name.now)))
            (λ refusal. rename_cause self.now.tree self.now.root key dir name.now ≡ Some refusal) }
    {
        check_rename(&self.table, self.root, key, dir, name)
    }

    /// What [`State::unlink`] would return now, without doing it.
    pub fn may_unlink(&self, key: Key) -> Result<bool, Refusal>
        ensures linked { IfOk result (λ linked. is_linked self.now.tree key ≡ linked) }
        ensures no_cause { IfOk result (λ linked. linked ≡ true → unlink_cause self.now.tree key ≡ None) }
        ensures refused { IfErr result (λ refusal.
            (is_linked self.now.tree key ≡ true) × (unlink_cause self.now.tree key ≡ Some refusal)) }
    {
        check_unlink(&self.table, key)
    }

    /// The keys of a linked node's subtree: each after all keys below it, siblings in byte order of names,
    /// the given key last. Refusals in order: `NoEntry` (not linked), `NoMemory`.
    pub fn post_order(&self, key: Key) -> Result<Vec<Key>, Refusal>
        ensures linked { IfOk result (λ _. linked_cause self.now.tree key ≡ None) }
        ensures ordered { IfOk result (λ keys. IsPostOrder self.now.tree key keys.items) }
        ensures last { IfOk result (λ keys. EndsWith keys.items key) }
        ensures refused { IfErr result (λ refusal. Refuses (linked_cause self.now.tree key) refusal) }
    {
        check_linked(&self.table, key)?;
        post_order(self.alloc, &self.table, key)
    }

    /// The node with this name in a directory, live or not (`kernfs_find_ns`).
    /// Refusals in order: `NoEntry` (the directory is not linked), `NotDir`, `NoEntry` (no such child).
    pub fn find(&self, dir: Key, name: &[u8]) -> Result<Key, Refusal>
        ensures found { result ≡ found self.now.tree dir name.now }
    {
        find_in(&self.table, dir, name, false)
    }

    /// The node that a path names, live or not; links are not followed (`kernfs_walk_ns`). `Invalid` if the
    /// path has no leading slash or has an empty component, otherwise the first refusal of the finds along
    /// the path.
    pub fn walk(&self, path: &[u8]) -> Result<Key, Refusal>
        ensures walked { result ≡ walked self.now.tree self.now.root path.now }
    {
        walk(&self.table, self.root, path, false)
    }

    /// The live node that a path names. Every node that is not live counts as missing.
    /// Refused as [`State::walk`] is.
    pub fn lookup(&self, path: &[u8]) -> Result<Key, Refusal>
        ensures seen { result ≡ seen self.now.tree self.now.root path.now }
    {
        walk(&self.table, self.root, path, true)
    }

    /// The node that all components of a path except the last lead to, and the last component, which may be
    /// empty.
    /// Refused as [`State::walk`] of the components before the last; the path `/` is `Invalid`.
    pub fn walk_parent<'a>(&self, path: &'a [u8]) -> Result<(Key, &'a [u8]), Refusal>
        ensures walked { MatchResult result
            (λ found. walked_parent self.now.tree self.now.root path.now ≡ Ok (found.0, found.1.now))
            (λ refusal. walked_parent self.now.tree self.now.root path.now ≡ Err refusal) }
    {
        walk_parent(&self.table, self.root, path)
    }

    /// The names of a directory's live children above a bound, in byte order, at most this many
    /// (`kernfs_fop_readdir`).
    /// Refusals in order: `NoEntry` (not linked), `NotDir`, `NoMemory`.
    pub fn list(&self, dir: Key, after: Option<&[u8]>, limit: usize) -> Result<Vec<Name>, Refusal>
        ensures no_cause { IfOk result (λ _. list_cause self.now.tree dir ≡ None) }
        ensures listed { IfOk result (λ names.
            IsListing self.now.tree dir (option_copied after.entry) limit names.items) }
        ensures refused { IfErr result (λ refusal. Refuses (list_cause self.now.tree dir) refusal) }
    {
        let names = self.names(dir, after, limit)?;
        copy_names(self.alloc, names)
    }

    /// The names that [`State::list`] copies, in place in the tree. This allocates nothing. Refused as
    /// [`State::list`] is, except for `NoMemory`.
    pub fn names(&self, dir: Key, after: Option<&[u8]>, limit: usize) -> Result<Names<'_>, Refusal>
        ensures no_cause { IfOk result (λ _. list_cause self.now.tree dir ≡ None) }
        ensures listed { IfOk result (λ names.
            IsListing self.now.tree dir (option_copied after.entry) limit names) }
        ensures refused { IfErr result (λ refusal. list_cause self.now.tree dir ≡ Some refusal) }
    {
        check_list(&self.table, dir)?;
        Ok(Names::new(&self.table, dir, after, limit))
    }

    /// The record of a linked node, in place in the tree, or None if the node is not linked.
    #[inline]
    pub fn record(&self, key: Key) -> Option<&Record>
        ensures known { option_copied result ≡ record_at self.now.tree key }
    {
        self.table.record(key)
    }

    /// What is reported of a linked node: its kind, its marks, its number of child directories, and its
    /// number of links. `NoEntry` if it is not linked.
    pub fn stat(&self, key: Key) -> Result<Stat, Refusal>
        ensures told { result ≡
            ok_or (option_map (stat_of self.now.tree) (record_at self.now.tree key)) Refusal.NoEntry }
    {
        match self.table.record(key) {
            Some(entry) => Ok(stat_of(&self.table, entry)),
            None => Err(Refusal::NoEntry),
        }
    }

    /// The directory of a linked node, or None for the root (`kernfs_get_parent`). `NoEntry` if the node
    /// is not linked.
    pub fn parent_of(&self, key: Key) -> Result<Option<Key>, Refusal>
        ensures told { result ≡
            ok_or (option_map (λ r. r.parent) (record_at self.now.tree key)) Refusal.NoEntry }
    {
        match self.table.record(key) {
            Some(entry) => Ok(entry.parent),
            None => Err(Refusal::NoEntry),
        }
    }

    /// The name of a linked node; the root's is empty (`kernfs_name`). `NoEntry` if it is not linked.
    pub fn name_of(&self, key: Key) -> Result<&[u8], Refusal>
        ensures told { MatchResult result
            (λ name. option_map (λ r. r.name) (record_at self.now.tree key) ≡ Some name.now)
            (λ refusal. (refusal ≡ Refusal.NoEntry) × (is_linked self.now.tree key ≡ false)) }
    {
        match self.table.record(key) {
            Some(entry) => Ok(entry.name.bytes()),
            None => Err(Refusal::NoEntry),
        }
    }

    /// The path that [`State::walk`] follows to a linked node (`kernfs_path_from_node` from the root): a
    /// slash, and the names from the root down, joined by slashes.
    /// Refusals in order: `NoEntry` (not linked), `NoMemory`.
    pub fn path_of(&self, key: Key) -> Result<Vec<u8>, Refusal>
        ensures linked { IfOk result (λ _. linked_cause self.now.tree key ≡ None) }
        ensures path { IfOk result (λ path. IsPathOf self.now.tree self.now.root key path.items) }
        ensures refused { IfErr result (λ refusal. Refuses (linked_cause self.now.tree key) refusal) }
    {
        check_linked(&self.table, key)?;
        path_of(self.alloc, &self.table, self.root, key)
    }

    /// The text of a link (`kernfs_get_target_path`). It is `../` for each step from the link's directory up
    /// to the first directory that is the root or above the target, then the names down to the target, joined
    /// by slashes.
    /// Refusals in order: `NoEntry` (not linked), `Invalid` (not a link), `NoEntry` (the target is not
    /// linked), `NoMemory`.
    pub fn target_text(&self, key: Key) -> Result<Vec<u8>, Refusal>
        ensures no_cause { IfOk result (λ _. text_cause self.now.tree key ≡ None) }
        ensures text { IfOk result (λ text. HasLinkText self.now.tree self.now.root key text.items) }
        ensures refused { IfErr result (λ refusal. Refuses (text_cause self.now.tree key) refusal) }
    {
        let (dir, target) = check_text(&self.table, key)?;
        link_text(self.alloc, &self.table, self.root, dir, target)
    }
}
