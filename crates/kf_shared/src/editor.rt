//! The guard of a thread that may change the tree.
ghost use Rattle.std.specs.Prelude.{◌≡◌, ◌+◌, ◌<◌, IfOk, IfErr, OnOk, OnErr, None, true, false, not, slice_set, length, List};
ghost use Rattle.kf_core.specs.declared.key.Key.{Key};
ghost use Rattle.kf_core.specs.declared.command.Command.{Command};
ghost use Rattle.kf_core.specs.declared.command.Command.TheVariants.{Create, Activate, Unlink, Rename, Hide};
ghost use Rattle.kf_words.specs.declared.note.Note.TheVariants.{Did, Compacted};
ghost use Rattle.kf_shared.specs.Noted.{KeepsWords};
ghost use Rattle.kf_core.specs.declared.refusal.Refusal.TheVariants as refusal_of;
ghost use Rattle.kf_core.specs.declared.caller.Phase.TheVariants as phase_of;
ghost use Rattle.kf_core.specs.Tree.{is_linked};
ghost use Rattle.kf_tree.specs.Canonical.{IsCanonical, doomed_inside_count};
ghost use Rattle.kf_tree.specs.Causes.{linked_cause};
ghost use Rattle.kf_tree.specs.Subtrees.{linked_count, owed_count};
ghost use Rattle.kf_table.specs.Children.{is_there_already};
ghost use Rattle.kf_tree.specs.TreeLogs.{IsAccepted, IsRefused, IsCompacted};
ghost use Rattle.kf_words.specs.Callers.{Handle, IsSameSeat, WasHidden, WasShown, seat_view};
ghost use Rattle.kf_words.specs.Nodes.{KeepsNodes, IsVacant, UnlinkAnswer, WasPinned};
ghost use Rattle.kf_words.specs.Made.{WasABreakThenWake};
ghost use Rattle.kf_words.specs.Runs.{WasAHide, WasAShow};
ghost use Rattle.kf_live.specs.Live.{Say};
ghost use Rattle.kf_live.specs.Lookers.{links_seen};
ghost use Rattle.kf_shared.specs.LookUps.{IsLedInRun};
ghost use Rattle.kf_shared.specs.Locked.{IsWhole, Adds, Created, CreateRefused, BornLowest, move_cause, IsHoldOfNode, HoldRefused, Unchanged, UnlinkDone, UnlinkRefused, is_claimed};
ghost use Rattle.kf_shared.specs.Hiding.{hold_cause, HideRefused, ShowDone, ShowNoted};
ghost use Rattle.kf_shared.specs.Removal.{IsNew, AreHolds, DoomHolds, DoomDone, DoomMarked, DoomNoted, SelfDoomNoted, CameAfter, SawItsDoom, DoomRefused, SelfRemovalRefused};

use crate::locked::Locked;
use crate::naming::Naming;
use crate::removing::Removing;
use crate::tree::SharedTree;
use kf_core::{Key, Node, Refusal};
use kf_live::Lookup;
use kf_tree::State;
use kf_words::{Call, Drained, Hidden, Hiding, Hold};
use std::marker::Model;
use std::sync::RwLockWriteGuard;

/// The tree while its lock is held for changes. In contracts it is what the lock guards.
#[derive(Drop)]
pub struct Editor<'a, N: Naming> {
    pub(crate) tree: &'a SharedTree<N>,
    pub(crate) guard: RwLockWriteGuard<'a, Locked<N>>,
}

impl<'a, N: Naming> Model for Editor<'a, N> {
    ghost use Rattle.std.specs.Sync.RwLock.{write_guard_value};
    ghost use Rattle.kf_shared.specs.Locked.{Locked};

    ghost Value = { Locked };

    ghost view = { λ s. write_guard_value s.guard };
}

impl<'a, N: Naming> Editor<'a, N> {
    /// The tree with its stored commands. The clauses say what holds whenever the lock is taken: the tree is
    /// lawful and the replay of its commands, and the words name the same linked, activated and doomed keys.
    /// Each time that a name was published, whatever look-ups led to was in a tree of the run.
    pub fn state(&self) -> &State
        ensures same { result.now ≡ self.now.state }
        ensures whole { IsWhole N.table self.now }
        ensures led { IsLedInRun self.now }
    {
        self.guard.state()
    }

    /// Makes a looker, which finds names without the lock, and has now seen all that the tree says. None of
    /// its look-ups finds an earlier state than this. Each of them finds what a tree of the one run has
    /// ([`look_ups_are_of_run`](crate::look_ups_are_of_run)).
    ///
    /// Refusal: NoMemory, if the words for look-ups can have no further owner.
    pub fn looker(&mut self) -> Result<Lookup, Refusal>
        ensures told { IfOk result
            (λ looker. 0 < looker.slots → Say (links_seen looker) self.old.state.tree) }
        ensures seen { IfOk result
            (λ looker. 0 < looker.slots → links_seen looker ≡ self.old.links) }
        ensures root { IfOk result (λ looker. looker.root ≡ self.old.state.root) }
        ensures same { self.new ≡ self.old }
        ensures refused { IfErr result (λ refusal. refusal ≡ refusal_of.NoMemory) }
    {
        self.guard.looker()
    }

    /// How many commands are stored. Each accepted command adds one, and only [`Editor::compact`] removes
    /// any.
    pub fn stored(&self) -> usize
        ensures known { result ≡ length self.now.state.commands }
    {
        self.state().stored()
    }

    /// An upper bound on how many commands would be stored after [`Editor::compact`], as [`State::compacted`]
    /// says.
    pub fn compacted(&self) -> usize
        ensures known { result + 1 ≡
            linked_count self.now.state.tree + owed_count self.now.state.tree }
        ensures canonical { (commands : List Command) → IsCanonical self.now.state.tree commands →
            length commands + doomed_inside_count self.now.state.tree ≡ result }
    {
        self.state().compacted()
    }

    /// Links a new node in a directory, under the next key of the lowest slot that was found free
    /// (`kernfs_create_dir_ns`, `__kernfs_create_file`, `kernfs_create_link`). If `live` is true, the node is
    /// also activated.
    ///
    /// Refusals, in order: NoEntry (parent not linked), NameTooLong (over 255 bytes) or Invalid (name),
    /// NotDir, NoEntry (parent doomed), NoEntry (a link's target is not linked), Invalid (a link's target is
    /// the root), Exists, NoSpace (no slot was found free), NoMemory. After a refusal the tree is as before.
    pub fn create(
        &mut self,
        parent: Key,
        name: &[u8],
        node: Node,
        live: bool,
    ) -> Result<Key, Refusal>
        ensures accepted { IfOk result (λ key. Created self.old self.new parent name.now node live key) }
        ensures next { IfOk result (λ key. IsVacant self.old.master.view key) }
        ensures lowest { IfOk result (λ key. BornLowest self.old.master.view self.new.master.view key.slot) }
        ensures noted { IfOk result
            (λ key. Adds self.old self.new (Did (Create key parent name.now node live))) }
        ensures refused { IfErr result
            (λ refusal. CreateRefused self.old self.new parent name.now node refusal) }
        ensures same { OnErr result (Unchanged self.old self.new) }
        ensures claims { self.new.claims ≡ self.old.claims }
    {
        self.guard.create(parent, name, node, live)
    }

    /// Activates each node of the subtree that is not doomed (`kernfs_activate`).
    ///
    /// Refusals, in order: NoEntry (not linked), NoMemory. After a refusal the tree is as before.
    pub fn activate(&mut self, key: Key) -> Result<(), Refusal>
        ensures accepted { IfOk result
            (λ _. IsAccepted self.old.state self.new.state (linked_cause self.old.state.tree key)
            (Activate key)) }
        ensures noted { OnOk result (Adds self.old self.new (Did (Activate key))) }
        ensures refused { IfErr result
            (λ refusal. IsRefused self.old.state self.new.state
            (linked_cause self.old.state.tree key) refusal) }
        ensures claims { self.new.claims ≡ self.old.claims }
        ensures same { OnErr result (self.new ≡ self.old) }
    {
        self.guard.activate(key)
    }

    /// Moves a node into a directory, under a name (`kernfs_rename_ns`). If the node already has this name in
    /// this directory, it stays as it is, and nothing is stored.
    ///
    /// Refusals, in order: Invalid (the root), NoEntry (either is not linked), NameTooLong (over 255 bytes)
    /// or Invalid (name), NotDir, NoEntry (either is not live). Then, if the node does not already have this
    /// place: Invalid (the directory is in the node's own subtree), Exists, NoMemory. After a refusal the
    /// tree is as before.
    pub fn rename(&mut self, key: Key, dir: Key, name: &[u8]) -> Result<(), Refusal>
        ensures no_cause { IfOk result (λ _. move_cause self.old key dir name.now ≡ None) }
        ensures stays { IfOk result
            (λ _. is_there_already self.old.state.tree key dir name.now ≡ true →
            self.new.state ≡ self.old.state) }
        ensures accepted { IfOk result (λ _. is_there_already self.old.state.tree key dir name.now ≡ false →
            IsAccepted self.old.state self.new.state (move_cause self.old key dir name.now)
            (Rename key dir name.now)) }
        ensures noted { IfOk result (λ _. is_there_already self.old.state.tree key dir name.now ≡ false →
            Adds self.old self.new (Did (Rename key dir name.now))) }
        ensures unnoted { IfOk result (λ _. is_there_already self.old.state.tree key dir name.now ≡ true →
            self.new.master ≡ self.old.master) }
        ensures refused { IfErr result
            (λ refusal. IsRefused self.old.state self.new.state
            (move_cause self.old key dir name.now) refusal) }
        ensures same_place { IfErr result (λ refusal. refusal ≡ refusal_of.NoMemory →
            is_there_already self.old.state.tree key dir name.now ≡ false) }
        ensures claims { self.new.claims ≡ self.old.claims }
        ensures words { KeepsWords self.old.master self.new.master }
    {
        self.guard.rename(key, dir, name)
    }

    /// Takes a new hold of a linked node (`kernfs_get`).
    ///
    /// Refusals, in order: NoEntry (not linked), TooManyHolds (the slot was found with the greatest number of
    /// holds), NoMemory. After a refusal the slot has no new hold.
    pub fn hold(&mut self, key: Key) -> Result<Hold, Refusal>
        ensures hold { IfOk result (λ hold. IsHoldOfNode N.table self.old.state.tree key hold) }
        ensures pinned { OnOk result (WasPinned self.old.master.view key.slot self.new.master.view) }
        ensures refused { IfErr result (λ refusal. HoldRefused self.old self.new key refusal) }
        ensures state { self.new.state ≡ self.old.state }
        ensures words { KeepsNodes self.old.master self.new.master }
        ensures claims { self.new.claims ≡ self.old.claims }
    {
        self.guard.hold(key)
    }

    /// Dooms the subtree of the hold's node, and returns a hold of each of its nodes (the marking half of
    /// `kernfs_remove`). Each node comes after all that is below it, siblings are in byte order of their
    /// names, and the given hold is last. If the node is no longer linked, only the given hold is returned
    /// and nothing is stored. If it is linked, its doom comes in the history after all that the given hold
    /// had seen. The given hold has then seen the whole history, whose last note is the doom.
    ///
    /// Condition: the hold is of this table.
    ///
    /// Refusals, in order: Invalid (the root), TooManyHolds (a node below was found with the greatest number
    /// of holds), NoMemory (each was found to have room, or the node is no longer linked). After a refusal
    /// nothing is marked, and the hold is returned.
    pub fn doom(&mut self, hold: Hold) -> Result<Vec<Hold>, (Hold, Refusal)>
        requires table { hold.table ≡ N.table }
        ensures order { IfOk result (λ holds. DoomHolds self.old.state.tree hold holds.items) }
        ensures holds { IfOk result (λ holds. AreHolds self.old.master hold holds.items) }
        ensures done { IfOk result (λ _. DoomDone self.old self.new hold.key) }
        ensures noted { OnOk result (DoomNoted self.old self.new hold.key) }
        ensures after { OnOk result (CameAfter self.old hold) }
        ensures seen { IfOk result (λ holds. SawItsDoom self.old self.new hold holds.items) }
        ensures back { IfErr result (λ r. r.0 ≡ hold) }
        ensures refused { IfErr result (λ r. DoomRefused self.old self.new hold.key r.1) }
        ensures same { OnErr result (Unchanged self.old self.new) }
        ensures claims { self.new.claims ≡ self.old.claims }
    {
        self.guard.doom(hold)
    }

    /// Takes a drained node out of the tree (`kernfs_unlink_sibling`). Returns false if the node is no longer
    /// linked.
    ///
    /// Condition: the receipt is of this table.
    ///
    /// Refusals of a linked node, in order: Invalid (not doomed), Busy (it has a linked child, or its word
    /// was found in use). After a refusal nothing is changed. It allocates nothing.
    pub fn unlink(&mut self, drained: &Drained) -> Result<bool, Refusal>
        requires table { drained.now.table ≡ N.table }
        ensures linked { IfOk result (λ unlinked. is_linked self.old.state.tree drained.now.key ≡ unlinked) }
        ensures accepted { IfOk result (λ unlinked. UnlinkDone self.old self.new drained.now.key unlinked) }
        ensures drained { IfOk result
            (λ unlinked. unlinked ≡ true →
            UnlinkAnswer self.old.master.view drained.now.key.slot true self.new.master.view) }
        ensures noted { IfOk result
            (λ unlinked. unlinked ≡ true → Adds self.old self.new (Did (Unlink drained.now.key))) }
        ensures still_linked { IfErr result (λ _. is_linked self.old.state.tree drained.now.key ≡ true) }
        ensures refused { IfErr result (λ refusal. UnlinkRefused self.old self.new drained.now.key refusal) }
        ensures claims { self.new.claims ≡ self.old.claims }
    {
        self.guard.unlink(drained)
    }

    /// Hides a file: until it is shown again, each try to take a reference to it is refused. Callbacks that
    /// already run on the file go on. `wait_hidden` waits for them; call it while the tree is unlocked.
    ///
    /// Condition: the hold is of this table.
    ///
    /// Refusals, in order: IsDir, Invalid (a link), both by the kind of the hold's own node; NoEntry (not
    /// linked, or doomed), Busy (hidden), NoMemory. After a refusal the tree is as before, and the hold is
    /// returned. One case differs: if somebody bypassed the tree and hid the key with [`Hold::hide`], Busy
    /// comes after NoMemory, and the hold has made one word step.
    pub fn hide(&mut self, hold: Hold) -> Result<Hiding, (Hold, Refusal)>
        requires table { hold.table ≡ N.table }
        ensures hiding { IfOk result (λ hiding. IsSameSeat hold hiding × WasHidden hold hiding) }
        ensures made { IfOk result (λ hiding. WasAHide (seat_view hold) (seat_view hiding)) }
        ensures accepted { IfOk result
            (λ _. IsAccepted self.old.state self.new.state (hold_cause self.old.state.tree hold)
            (Hide hold.key)) }
        ensures noted { OnOk result (Adds self.old self.new (Did (Hide hold.key))) }
        ensures refused { IfErr result (λ r. HideRefused self.old.state.tree hold r.0 r.1) }
        ensures same { OnErr result (Unchanged self.old self.new) }
        ensures words { KeepsWords self.old.master self.new.master }
        ensures claims { self.new.claims ≡ self.old.claims }
    {
        self.guard.hide(hold)
    }

    /// Shows a hidden file again. From then on a try succeeds if the node is linked, activated and not
    /// doomed, whatever was done to the node while it was hidden. If the node has left the tree, nothing is
    /// stored. It refuses nothing and allocates nothing.
    ///
    /// Condition: the token is of this table.
    pub fn show(&mut self, hidden: Hidden) -> Hold
        requires table { hidden.table ≡ N.table }
        ensures hold { IsSameSeat hidden result × WasShown hidden result }
        ensures made { WasAShow (seat_view hidden) (seat_view result) }
        ensures done { ShowDone self.old self.new hidden.key }
        ensures noted { ShowNoted self.old self.new hidden.key }
        ensures words { KeepsWords self.old.master self.new.master }
        ensures claims { self.new.claims ≡ self.old.claims }
    {
        self.guard.show(hidden)
    }

    /// Replaces the stored commands with the canonical list of commands of this tree. The tree, its keys, the
    /// words and all holds stay as they are.
    ///
    /// Refusal: NoMemory. Then nothing is changed.
    pub fn compact(&mut self) -> Result<(), Refusal>
        ensures compacted { IfOk result (λ _. IsCompacted self.old.state self.new.state) }
        ensures noted { OnOk result (Adds self.old self.new Compacted) }
        ensures refused { IfErr result (λ refusal. refusal ≡ refusal_of.NoMemory) }
        ensures same { OnErr result (self.new ≡ self.old) }
        ensures words { KeepsWords self.old.master self.new.master }
        ensures claims { self.new.claims ≡ self.old.claims }
    {
        self.guard.compact()
    }

    /// Unlocks, and returns the tree, on which the caller can then finish a removal that was begun. The last
    /// note says that the lock is about to be released. From then on other threads may change what the lock
    /// guards, so no clause speaks of it.
    pub fn let_go(self) -> &'a SharedTree<N> {
        let mut editor = self;
        let tree = editor.tree;
        editor.guard.end_section();
        drop(editor);
        tree
    }

    /// Like `doom`, but allocates room for the receipts before anything is marked. [`Removing::finish`] then
    /// waits, while the tree is unlocked, and allocates nothing.
    ///
    /// Condition: the hold is of this table.
    ///
    /// Refusals: those of `doom`. After a refusal nothing is marked, and the hold is returned.
    pub fn begin_removal(&mut self, hold: Hold) -> Result<Removing<N>, (Hold, Refusal)>
        requires table { hold.table ≡ N.table }
        ensures order { IfOk result (λ removing. DoomHolds self.old.state.tree hold removing) }
        ensures holds { IfOk result (λ removing. AreHolds self.old.master hold removing) }
        ensures done { IfOk result (λ _. DoomDone self.old self.new hold.key) }
        ensures noted { OnOk result (DoomNoted self.old self.new hold.key) }
        ensures after { OnOk result (CameAfter self.old hold) }
        ensures seen { IfOk result (λ removing. SawItsDoom self.old self.new hold removing) }
        ensures was_whole { IsWhole N.table self.old }
        ensures whole { IsWhole N.table self.new }
        ensures back { IfErr result (λ r. r.0 ≡ hold) }
        ensures refused { IfErr result (λ r. DoomRefused self.old self.new hold.key r.1) }
        ensures same { OnErr result (Unchanged self.old self.new) }
        ensures claims { self.new.claims ≡ self.old.claims }
    {
        let _ = self.state();
        let mut receipts = Vec::new(self.tree.alloc);
        let started = self.guard.start_removal(hold, &mut receipts);
        let _ = self.state();
        match started {
            Ok(holds) => Ok(Removing::new(holds, receipts)),
            Err(refused) => {
                receipts.destroy_empty();
                Err(refused)
            }
        }
    }

    /// Begins the removal of a call's own node: takes new holds of the subtree's nodes, dooms these nodes,
    /// claims the call's node, and breaks the call's protection. The `bool` is true for the first claim of
    /// the node. [`Removing::finish`] then waits, while the tree is unlocked. After that the call may be
    /// restored.
    ///
    /// Conditions: the call is Running, and of this table. After an `Ok` it is Broken.
    ///
    /// Refusals: those of [`SharedTree::remove_self`]. After a refusal the call is as it was, nothing is
    /// marked, and no claim is made.
    pub fn begin_self_removal(&mut self, call: &mut Call) -> Result<(bool, Removing<N>), Refusal>
        requires table { call.old.table ≡ N.table }
        requires running { call.old.phase ≡ phase_of.Running }
        ensures seat { IsSameSeat call.old call.new }
        ensures broken { OnOk result (call.new.phase ≡ phase_of.Broken) }
        ensures made { OnOk result (WasABreakThenWake (seat_view call.old) (seat_view call.new)) }
        ensures kept { OnErr result (call.new ≡ call.old) }
        ensures holds { IfOk result
            (λ r. (hold : Handle) × (hold.key ≡ call.old.key) × IsNew self.old.master hold
            × AreHolds self.old.master hold r.1 × DoomHolds self.old.state.tree hold r.1) }
        ensures first { IfOk result (λ r. r.0 ≡ not (is_claimed self.old.claims call.old.key)) }
        ensures claimed { OnOk result
            (self.new.claims ≡ slice_set self.old.claims call.old.key.slot call.old.key.generation) }
        ensures done { IfOk result (λ _. DoomMarked self.old self.new call.old.key) }
        ensures noted { OnOk result (SelfDoomNoted self.old self.new call.old.key) }
        ensures was_whole { IsWhole N.table self.old }
        ensures whole { IsWhole N.table self.new }
        ensures refused { IfErr result
            (λ refusal. SelfRemovalRefused self.old self.new call.old.key refusal) }
        ensures same { OnErr result (Unchanged self.old self.new) }
    {
        let _ = self.state();
        let mut receipts = Vec::new(self.tree.alloc);
        let started = self.guard.start_self_removal(call, &mut receipts);
        let _ = self.state();
        match started {
            Ok((first, holds)) => Ok((first, Removing::new(holds, receipts))),
            Err(refusal) => {
                receipts.destroy_empty();
                Err(refusal)
            }
        }
    }
}
