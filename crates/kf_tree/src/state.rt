//! The plain tree with its stored commands, and the calls that change it.

ghost use Rattle.std.specs.Prelude.{◌≡◌, ◌<◌, IfOk, IfErr, OnOk, IfSome, slice_get, MatchBool, Option, None, Some, true, false};
ghost use Rattle.kf_core.specs.declared.command.Command.TheVariants.{Create, Activate, Doom, Unlink, Rename, Hide, Show};
ghost use Rattle.kf_core.specs.Tree.{is_linked};
ghost use Rattle.kf_core.specs.PostOrder.{IsPostOrder};
ghost use Rattle.kf_tree.specs.Causes.{create_fault, create_cause, linked_cause, doom_cause, unlink_cause, hide_cause, hidden_in, rename_cause};
ghost use Rattle.kf_table.specs.Children.{is_there_already};
ghost use Rattle.kf_tree.specs.Ends.{EndsWith};
ghost use Rattle.kf_tree.specs.TreeLogs.{IsNew, IsAccepted, IsReadied, IsCompacted, IsRefused};

mod reads;
mod tours;

use crate::canonical::canonical_commands;
use crate::causes::{
    check_create, check_doom, check_hide, check_linked, check_rename, check_unlink,
};
use crate::growth::{copy_name, make_room, store};
use crate::marks::{activate_each, count_undoomed, doom_each, is_hidden, owed_for};
use crate::post_order::post_order;
use kf_core::{Command, Key, Limits, Node, NodeFlags, Record, Refusal};
use kf_table::Table;
use std::alloc::Global;
use std::marker::Model;

/// A tree: its records by slot, and its stored commands. Contracts see the root's key, the tree, the
/// commands, and the key that is ready to be hidden.
/// The tree is always lawful, and always the replay of the commands from a tree of only the root.
///
/// A command allocates all memory that it needs before it changes anything, so a refused command leaves all
/// as it was. [`State::unlink`], [`State::hide`] and [`State::show`] allocate nothing: the list keeps room
/// for what they store.
pub struct State {
    alloc: Global,
    root: Key,
    table: Table,
    commands: Vec<Command>,
    /// For how many later commands the list keeps room: an unlink of each doomed record, and a show of each
    /// hidden one.
    owed: usize,
    /// The key that `may_hide` has made ready to be hidden, until the next change.
    ready: Option<Key>,
}

/// Written out, so that a crate that drops a tree need not prove again that each of its parts is dropped.
impl Drop for State {
    fn drop(self) {
        let State {
            alloc: _,
            root: _,
            table: _,
            commands: _,
            owed: _,
            ready: _,
        } = self;
    }
}

impl Model for State {
    ghost use Rattle.std.specs.Prelude.{◌≡◌, vec_capacity};
    ghost use Rattle.kf_tree.specs.TreeLogs.{TreeLog};
    ghost use Rattle.kf_tree.specs.Sound.{IsSound};

    ghost Value = { TreeLog };

    ghost view = { λ s.
        record { root = s.root; tree = s.table; commands = s.commands.items; ready = s.ready } };

    ghost invariant = { λ s.
        IsSound (record { root = s.root; tree = s.table; commands = s.commands.items; ready = s.ready })
        (vec_capacity s.commands) s.owed };
}

impl State {
    /// A tree of only the root, with this many slots. The root is a live directory. `NoMemory` if there is no
    /// memory for the table.
    ///
    /// Condition: the root's slot is in the table.
    pub fn new(alloc: Global, limits: Limits, root: Key) -> Result<State, Refusal>
        requires in_table { root.slot < limits.slots }
        ensures made { IfOk result (λ state. IsNew limits.slots root state) }
        ensures refused { IfErr result (λ refusal. refusal ≡ Refusal.NoMemory) }
    {
        let table = Table::new(alloc, limits.slots(), root)?;
        Ok(State {
            alloc,
            root,
            table,
            commands: Vec::new(alloc),
            owed: 0,
            ready: None,
        })
    }

    /// Links a new record in a directory, under the next key, and activates it if it is to be live
    /// (`kernfs_create_dir_ns`, `__kernfs_create_file`, `kernfs_create_link`).
    /// Refusals in order: `NoEntry` (the parent is not linked), `NameTooLong` or `Invalid` (the name),
    /// `NotDir`, `NoEntry` (the parent is doomed), `NoEntry` (a link's target is not linked), `Invalid` (the
    /// target is the root), `Exists`, `NoSpace` (there is no next key), `NoMemory`. After a refusal nothing
    /// is changed.
    ///
    /// Condition: the next key's slot is in the table and has no linked node, as [`State::is_vacant`] says.
    /// The key's generation must also be fresh. The state does not remember the keys of unlinked nodes. So if
    /// the slot had this generation before, a key or a link that somebody kept of the old node would name the
    /// new one.
    pub fn create(
        &mut self,
        parent: Key,
        name: &[u8],
        node: Node,
        live: bool,
        next: Option<Key>,
    ) -> Result<Key, Refusal>
        requires vacant { IfSome next (λ key. slice_get self.old.tree key.slot ≡ Some None) }
        ensures given { IfOk result (λ key. next ≡ Some key) }
        ensures accepted { IfOk result (λ key.
            IsAccepted self.old self.new (create_cause self.old.tree self.old.root parent name.now node next)
            (Create key parent name.now node live)) }
        ensures refused { IfErr result (λ refusal.
            IsRefused self.old self.new (create_cause self.old.tree self.old.root parent name.now node next)
            refusal) }
    {
        let key = check_create(&self.table, self.root, parent, name, &node, next)?;
        self.create_under(key, parent, name, node, live)?;
        Ok(key)
    }

    /// Like [`State::create`], but under this key, for a caller that has already called
    /// [`State::create_fault`]. The only refusal is `NoMemory`; after it nothing is changed.
    ///
    /// Condition: nothing is wrong with the new record, as `create_fault` says. The key is as `create`
    /// requires.
    pub fn create_under(
        &mut self,
        key: Key,
        parent: Key,
        name: &[u8],
        node: Node,
        live: bool,
    ) -> Result<(), Refusal>
        requires no_fault { create_fault self.old.tree self.old.root parent name.now node ≡ None }
        requires vacant { slice_get self.old.tree key.slot ≡ Some None }
        ensures accepted { IfOk result (λ _. IsAccepted self.old self.new
            (create_cause self.old.tree self.old.root parent name.now node (Some key))
            (Create key parent name.now node live)) }
        ensures refused { IfErr result (λ refusal. (refusal ≡ Refusal.NoMemory) × (self.new ≡ self.old)) }
    {
        let own_name = copy_name(self.alloc, name)?;
        let stored_name = copy_name(self.alloc, name)?;
        make_room(&mut self.commands, self.owed)?;
        self.table.add(Record {
            key,
            parent: Some(parent),
            marks: NodeFlags {
                activated: live,
                doomed: false,
            },
            hidden: false,
            node,
            name: own_name,
        })?;
        self.ready = None;
        let command = Command::Create {
            key,
            parent,
            name: stored_name,
            node,
            live,
        };
        store(&mut self.commands, command);
        Ok(())
    }

    /// Activates each node of the subtree that is not doomed (`kernfs_activate`).
    /// Refusals in order: `NoEntry` (not linked), `NoMemory`. After a refusal nothing is changed.
    pub fn activate(&mut self, key: Key) -> Result<(), Refusal>
        ensures accepted { IfOk result (λ _.
            IsAccepted self.old self.new (linked_cause self.old.tree key) (Activate key)) }
        ensures refused { IfErr result (λ refusal.
            IsRefused self.old self.new (linked_cause self.old.tree key) refusal) }
    {
        let order = self.post_order(key)?;
        self.activate_in_order(key, &order)
    }

    /// Like [`State::activate`], but the caller passes in the post-order of the subtree, as
    /// [`State::post_order`] returns it.
    /// Refusals in order: `NoEntry` (not linked), `NoMemory`. After a refusal nothing is changed.
    ///
    /// Condition: the order is the post-order of the key's subtree.
    pub fn activate_in_order(&mut self, key: Key, order: &[Key]) -> Result<(), Refusal>
        requires in_order { IsPostOrder self.old.tree key order.now }
        ensures accepted { IfOk result (λ _.
            IsAccepted self.old self.new (linked_cause self.old.tree key) (Activate key)) }
        ensures refused { IfErr result (λ refusal.
            IsRefused self.old self.new (linked_cause self.old.tree key) refusal) }
    {
        check_linked(&self.table, key)?;
        make_room(&mut self.commands, self.owed)?;
        activate_each(&mut self.table, order);
        self.ready = None;
        store(&mut self.commands, Command::Activate { key });
        Ok(())
    }

    /// Moves a record into a directory, under a name (`kernfs_rename_ns`). If the record is there already
    /// under that name, it stays, nothing is stored, and nothing is allocated.
    /// Refusals in order: `Invalid` (the record is the root), `NoEntry` (the record or the directory is not
    /// linked), `NameTooLong` or `Invalid` (the name), `NotDir`, `NoEntry` (the record or the directory is
    /// not live); if the record is not there already, `Invalid` (the directory is in the record's own
    /// subtree), `Exists`, `NoMemory`. After a refusal nothing is changed.
    pub fn rename(&mut self, key: Key, dir: Key, name: &[u8]) -> Result<(), Refusal>
        ensures no_cause { IfOk result
            (λ _. rename_cause self.old.tree self.old.root key dir name.now ≡ None) }
        ensures stays { IfOk result (λ _.
            is_there_already self.old.tree key dir name.now ≡ true → self.new ≡ self.old) }
        ensures accepted { IfOk result (λ _. is_there_already self.old.tree key dir name.now ≡ false →
            IsAccepted self.old self.new (rename_cause self.old.tree self.old.root key dir name.now)
            (Rename key dir name.now)) }
        ensures refused { IfErr result (λ refusal.
            IsRefused self.old self.new (rename_cause self.old.tree self.old.root key dir name.now) refusal) }
        ensures same_place { IfErr result (λ refusal.
            refusal ≡ Refusal.NoMemory → is_there_already self.old.tree key dir name.now ≡ false) }
    {
        let moves = check_rename(&self.table, self.root, key, dir, name)?;
        if moves {
            self.move_away(key, dir, name)?;
        }
        Ok(())
    }

    /// Moves a record that is not there already, and whose move has no cause against it. The only refusal is
    /// `NoMemory`; after it nothing is changed.
    fn move_away(&mut self, key: Key, dir: Key, name: &[u8]) -> Result<(), Refusal>
        requires no_cause { rename_cause self.old.tree self.old.root key dir name.now ≡ None }
        requires elsewhere { is_there_already self.old.tree key dir name.now ≡ false }
        ensures accepted { OnOk result (IsAccepted self.old self.new
            (rename_cause self.old.tree self.old.root key dir name.now) (Rename key dir name.now)) }
        ensures refused { IfErr result (λ refusal. (refusal ≡ Refusal.NoMemory) × (self.new ≡ self.old)) }
    {
        let own_name = copy_name(self.alloc, name)?;
        let stored_name = copy_name(self.alloc, name)?;
        make_room(&mut self.commands, self.owed)?;
        self.table.move_to(key, dir, own_name)?;
        self.ready = None;
        store(
            &mut self.commands,
            Command::Rename {
                key,
                dir,
                name: stored_name,
            },
        );
        Ok(())
    }

    /// Dooms each node of the subtree, and returns their keys: each after all keys below it, siblings in byte
    /// order of names, the given key last (the marking half of `kernfs_remove`). The doom of a node that is
    /// doomed already is accepted and stored too. Refusals in order: `NoEntry` (not linked), `Invalid` (the
    /// root), `NoMemory`. After a refusal nothing is changed.
    pub fn doom(&mut self, key: Key) -> Result<Vec<Key>, Refusal>
        ensures accepted { IfOk result (λ _.
            IsAccepted self.old self.new (doom_cause self.old.tree self.old.root key) (Doom key)) }
        ensures ordered { IfOk result (λ keys. IsPostOrder self.old.tree key keys.items) }
        ensures last { IfOk result (λ keys. EndsWith keys.items key) }
        ensures refused { IfErr result (λ refusal.
            IsRefused self.old self.new (doom_cause self.old.tree self.old.root key) refusal) }
    {
        check_doom(&self.table, self.root, key)?;
        let order = post_order(self.alloc, &self.table, key)?;
        self.doom_in_order(key, &order)?;
        Ok(order)
    }

    /// Like [`State::doom`], but the caller passes in the post-order of the subtree, as [`State::post_order`]
    /// returns it.
    /// Refusals in order: `NoEntry` (not linked), `Invalid` (the root), `NoMemory`. After a refusal nothing
    /// is changed.
    ///
    /// Condition: the order is the post-order of the key's subtree.
    pub fn doom_in_order(&mut self, key: Key, order: &[Key]) -> Result<(), Refusal>
        requires in_order { IsPostOrder self.old.tree key order.now }
        ensures accepted { IfOk result (λ _.
            IsAccepted self.old self.new (doom_cause self.old.tree self.old.root key) (Doom key)) }
        ensures refused { IfErr result (λ refusal.
            IsRefused self.old self.new (doom_cause self.old.tree self.old.root key) refusal) }
    {
        check_doom(&self.table, self.root, key)?;
        let newly = count_undoomed(&self.table, order);
        make_room(&mut self.commands, self.owed + newly)?;
        self.owed += doom_each(&mut self.table, order);
        self.ready = None;
        store(&mut self.commands, Command::Doom { key });
        Ok(())
    }

    /// Takes a doomed record without linked children out of the tree, and returns whether the key was linked
    /// (`kernfs_unlink_sibling` in `__kernfs_remove`). It allocates nothing. Refusals in order, of a linked
    /// key: `Invalid` (it is not doomed), `Busy` (it has a linked child). After a refusal, and after it
    /// returns false, nothing is changed.
    pub fn unlink(&mut self, key: Key) -> Result<bool, Refusal>
        ensures linked { IfOk result (λ unlinked. is_linked self.old.tree key ≡ unlinked) }
        ensures accepted { IfOk result (λ unlinked. MatchBool unlinked
            (IsAccepted self.old self.new (unlink_cause self.old.tree key) (Unlink key))
            (self.new ≡ self.old)) }
        ensures refused { IfErr result (λ refusal.
            (is_linked self.old.tree key ≡ true) × (unlink_cause self.old.tree key ≡ Some refusal)
            × (self.new ≡ self.old)) }
    {
        let linked = check_unlink(&self.table, key)?;
        if linked {
            self.owed -= owed_for(&self.table, key);
            self.table.take_out(key);
            self.ready = None;
            store(&mut self.commands, Command::Unlink { key });
        }
        Ok(linked)
    }

    /// Makes the state ready to hide a file, until the state's next change. It allocates the memory for the
    /// hiding and for the show after it, or says why the node may not be hidden. The tree and the commands
    /// stay as they are.
    /// Refusals in order: `NoEntry` (not linked), `IsDir`, `Invalid` (a link), `NoEntry` (doomed), `Busy`
    /// (hidden), `NoMemory`. After a refusal nothing is changed.
    pub fn may_hide(&mut self, key: Key) -> Result<(), Refusal>
        ensures readied { IfOk result (λ _.
            IsReadied self.old self.new (hide_cause self.old.tree key) key) }
        ensures refused { IfErr result (λ refusal.
            IsRefused self.old self.new (hide_cause self.old.tree key) refusal) }
    {
        check_hide(&self.table, key)?;
        make_room(&mut self.commands, self.owed + 1)?;
        self.ready = Some(key);
        Ok(())
    }

    /// Hides a file (`kernfs_show` with `show` false). The file is linked as before, but it is not live:
    /// neither `lookup` nor `list` finds it, and it cannot be moved. This allocates nothing, and refuses
    /// nothing.
    ///
    /// Condition: [`State::may_hide`] made the state ready for this key, and nothing has changed since.
    pub fn hide(&mut self, key: Key)
        requires ready { self.old.ready ≡ Some key }
        ensures accepted { IsAccepted self.old self.new (hide_cause self.old.tree key) (Hide key) }
    {
        self.table.hide(key.slot);
        self.owed += 1;
        self.ready = None;
        store(&mut self.commands, Command::Hide { key });
    }

    /// Shows a hidden file again (`kernfs_show` with `show` true), and returns whether the key was linked and
    /// hidden. If it was not, nothing is changed. A file that was activated or doomed while it was hidden
    /// stays so. This allocates nothing, and refuses nothing.
    pub fn show(&mut self, key: Key) -> bool
        ensures told { result ≡ hidden_in self.old.tree key }
        ensures accepted { MatchBool result
            (IsAccepted self.old self.new None (Show key))
            (self.new ≡ self.old) }
    {
        let hidden = is_hidden(&self.table, key);
        if hidden {
            self.table.show(key.slot);
            self.owed -= 1;
            self.ready = None;
            store(&mut self.commands, Command::Show { key });
        }
        hidden
    }

    /// Replaces the stored commands with the canonical list of this tree. The list has first a creation of
    /// each record except the root, then a doom of the top of each doomed subtree, then a hiding of each
    /// hidden record. Each of these three parts is in pre-order, with siblings in byte order of names. The
    /// replay of this list is this tree. The tree, its indexes, counts and keys stay as they are. After its
    /// commands, the list has only the room that a later unlink of each doomed record and a show of each
    /// hidden one need. So the memory of the list is bounded; otherwise it grows with every command. The only
    /// refusal is `NoMemory`; after it nothing is changed.
    pub fn compact(&mut self) -> Result<(), Refusal>
        ensures compacted { IfOk result (λ _. IsCompacted self.old self.new) }
        ensures refused { IfErr result (λ refusal. (refusal ≡ Refusal.NoMemory) × (self.new ≡ self.old)) }
    {
        self.commands = canonical_commands(self.alloc, &self.table, self.root, self.owed)?;
        self.ready = None;
        Ok(())
    }
}
