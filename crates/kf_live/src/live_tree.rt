//! The tree that publishes its live names to look-ups.
ghost use Rattle.std.specs.Prelude.{◌≡◌, ◌<◌, ◌≤◌, [], IfOk, IfErr, OnOk, OnErr, MatchBool, Some, None, true, false, slice_get};
ghost use Rattle.kf_core.specs.declared.command.Command.TheVariants.{Create, Activate, Doom, Unlink, Rename, Hide, Show};
ghost use Rattle.kf_core.specs.Tree.{is_linked};
ghost use Rattle.kf_core.specs.declared.refusal.Refusal.TheVariants as refusal_of;
ghost use Rattle.kf_core.specs.PostOrder.{IsPostOrder};
ghost use Rattle.kf_tree.specs.Causes.{create_fault, create_cause, linked_cause, doom_cause, unlink_cause, hide_cause, hidden_in, rename_cause};
ghost use Rattle.kf_table.specs.Children.{is_there_already};
ghost use Rattle.kf_tree.specs.TreeLogs.{IsNew, IsAccepted, IsRefused, IsReadied, IsCompacted};
ghost use Rattle.kf_core.specs.Limits.{most_slots};
ghost use Rattle.kf_live.specs.Live.{Say};
ghost use Rattle.kf_live.specs.Lookers.{links_seen};
ghost use Rattle.kf_live.specs.Told.{WereTold};

use crate::lookup::Lookup;
use crate::publishing::{
    place_before, place_left, publish, publish_gone, publish_move, publish_one,
};
use kf_core::{Key, Limits, Node, Refusal};
use kf_looks::{LookupTable, Writer};
use kf_tree::State;
use std::alloc::Global;
use std::marker::Model;
use std::sync::Arc;

/// A tree with its stored commands, and the words that look-ups read. After each command the words say what
/// the tree says about its live nodes. Contracts see what they see of a [`State`], and all links that were
/// made.
#[derive(Drop)]
pub struct LiveTree {
    pub(crate) state: State,
    pub(crate) looks: Arc<LookupTable>,
    pub(crate) writer: Option<Writer>,
}

impl Model for LiveTree {
    ghost use Rattle.std.specs.Arc.{arc_value};
    ghost use Rattle.kf_live.specs.Live.{Say, Writes};
    ghost use Rattle.kf_live.specs.Told.{LiveLog, links_by};

    ghost Value = { LiveLog };

    ghost view = { λ s. record { log = s.state; links = links_by s.writer } };

    ghost invariant = { λ s.
        Writes (arc_value s.looks) (λ links. Say links s.state.tree) s.writer };
}

impl LiveTree {
    /// A tree with only the root, as [`State::new`] makes it, and with words for look-ups in this many slots.
    /// Nodes in higher slots are found only in the tree. If `slots` is 0, nothing is published, and every
    /// look-up returns None, so its caller asks the tree.
    ///
    /// Conditions: the root's slot is in the table; there are at most [`kf_core::MOST_SLOTS`] slots with
    /// words.
    ///
    /// Refusal: NoMemory.
    pub fn new(alloc: Global, limits: Limits, root: Key, slots: u32) -> Result<LiveTree, Refusal>
        requires in_table { root.slot < limits.slots }
        requires few { slots ≤ most_slots }
        ensures made { IfOk result (λ tree. IsNew limits.slots root tree.log) }
        ensures untold { IfOk result (λ tree. tree.links ≡ []) }
        ensures refused { IfErr result (λ refusal. refusal ≡ refusal_of.NoMemory) }
    {
        let (looks, writer) = LookupTable::new(alloc, slots)?;
        let looks = Arc::new(alloc, looks)?;
        let state = State::new(alloc, limits, root)?;
        Ok(LiveTree {
            state,
            looks,
            writer: Some(writer),
        })
    }

    /// A looker that has seen everything that the tree says now. None of its look-ups returns anything older.
    ///
    /// Refusal: NoMemory, if the words cannot have another owner.
    pub fn looker(&mut self) -> Result<Lookup, Refusal>
        ensures told { IfOk result
            (λ looker. 0 < looker.slots → Say (links_seen looker) self.old.log.tree) }
        ensures seen { IfOk result
            (λ looker. 0 < looker.slots → links_seen looker ≡ self.old.links) }
        ensures root { IfOk result (λ looker. looker.root ≡ self.old.log.root) }
        ensures same { self.new ≡ self.old }
        ensures refused { IfErr result (λ refusal. refusal ≡ refusal_of.NoMemory) }
    {
        let looks = Arc::try_clone(&self.looks)?;
        let root = self.state.root();
        let eye = match &mut self.writer {
            Some(writer) if looks.slots > 0 => looks.looker_after(writer),
            _ => looks.looker(),
        };
        Ok(Lookup { looks, root, eye })
    }

    /// The tree with its stored commands.
    pub fn state(&self) -> &State
        ensures same { result.now ≡ self.now.log }
    {
        &self.state
    }

    /// Activates a subtree like [`State::activate_in_order`], and publishes each of its nodes.
    ///
    /// Condition: the order is the post-order of the key's subtree.
    pub fn activate_in_order(&mut self, key: Key, order: &[Key]) -> Result<(), Refusal>
        requires in_order { IsPostOrder self.old.log.tree key order.now }
        ensures accepted { IfOk result (λ _.
            IsAccepted self.old.log self.new.log (linked_cause self.old.log.tree key) (Activate key)) }
        ensures told { OnOk result (WereTold self.old.links self.new.links self.new.log) }
        ensures refused { IfErr result (λ refusal.
            IsRefused self.old.log self.new.log (linked_cause self.old.log.tree key) refusal) }
        ensures untold { OnErr result (self.new.links ≡ self.old.links) }
    {
        self.state.activate_in_order(key, order)?;
        self.writer = publish(&self.looks, self.writer.take(), &self.state, order);
        Ok(())
    }

    /// Dooms a subtree like [`State::doom_in_order`], and withdraws only the top's name from look-ups. After
    /// that no path leads below the top. Each node below keeps its line in the words until it is unlinked.
    ///
    /// Condition: the order is the post-order of the key's subtree.
    pub fn doom_in_order(&mut self, key: Key, order: &[Key]) -> Result<(), Refusal>
        requires in_order { IsPostOrder self.old.log.tree key order.now }
        ensures accepted { IfOk result (λ _.
            IsAccepted self.old.log self.new.log
            (doom_cause self.old.log.tree self.old.log.root key) (Doom key)) }
        ensures told { OnOk result (WereTold self.old.links self.new.links self.new.log) }
        ensures refused { IfErr result (λ refusal.
            IsRefused self.old.log self.new.log
            (doom_cause self.old.log.tree self.old.log.root key) refusal) }
        ensures untold { OnErr result (self.new.links ≡ self.old.links) }
    {
        let _ = self.state.root();
        self.state.doom_in_order(key, order)?;
        self.writer = publish_one(&self.looks, self.writer.take(), &self.state, key);
        Ok(())
    }

    /// Creates a node like [`State::create_under`], and publishes the node if it is live.
    ///
    /// Conditions: `create_fault` finds nothing wrong with the new record, and the key's slot has no linked
    /// node.
    pub fn create_under(
        &mut self,
        key: Key,
        parent: Key,
        name: &[u8],
        node: Node,
        live: bool,
    ) -> Result<(), Refusal>
        requires no_fault { create_fault self.old.log.tree self.old.log.root parent name.now node ≡ None }
        requires vacant { slice_get self.old.log.tree key.slot ≡ Some None }
        ensures accepted { IfOk result (λ _. IsAccepted self.old.log self.new.log
            (create_cause self.old.log.tree self.old.log.root parent name.now node (Some key))
            (Create key parent name.now node live)) }
        ensures told { OnOk result (WereTold self.old.links self.new.links self.new.log) }
        ensures refused { IfErr result (λ refusal. (refusal ≡ refusal_of.NoMemory) × (self.new ≡ self.old)) }
    {
        let _ = self.state.root();
        self.state.create_under(key, parent, name, node, live)?;
        if live {
            self.writer = publish_one(&self.looks, self.writer.take(), &self.state, key);
        }
        Ok(())
    }

    /// Moves a node like [`State::rename`], and publishes the move in one change.
    pub fn rename(&mut self, key: Key, dir: Key, name: &[u8]) -> Result<(), Refusal>
        ensures no_cause { IfOk result
            (λ _. rename_cause self.old.log.tree self.old.log.root key dir name.now ≡ None) }
        ensures stays { IfOk result (λ _.
            is_there_already self.old.log.tree key dir name.now ≡ true → self.new.log ≡ self.old.log) }
        ensures accepted { IfOk result (λ _. is_there_already self.old.log.tree key dir name.now ≡ false →
            IsAccepted self.old.log self.new.log
            (rename_cause self.old.log.tree self.old.log.root key dir name.now) (Rename key dir name.now)) }
        ensures told { OnOk result (WereTold self.old.links self.new.links self.new.log) }
        ensures refused { IfErr result (λ refusal.
            IsRefused self.old.log self.new.log
            (rename_cause self.old.log.tree self.old.log.root key dir name.now) refusal) }
        ensures untold { OnErr result (self.new.links ≡ self.old.links) }
        ensures same_place { IfErr result (λ refusal.
            refusal ≡ refusal_of.NoMemory → is_there_already self.old.log.tree key dir name.now ≡ false) }
    {
        let _ = self.state.root();
        let was = place_before(&self.looks, &self.state, key);
        self.state.rename(key, dir, name)?;
        self.writer = publish_move(&self.looks, self.writer.take(), was, &self.state, key);
        Ok(())
    }

    /// Unlinks a node like [`State::unlink`], and withdraws its name if look-ups may still have it.
    pub fn unlink(&mut self, key: Key) -> Result<bool, Refusal>
        ensures linked { IfOk result (λ unlinked. is_linked self.old.log.tree key ≡ unlinked) }
        ensures accepted { IfOk result (λ unlinked. MatchBool unlinked
            (IsAccepted self.old.log self.new.log (unlink_cause self.old.log.tree key) (Unlink key))
            (self.new ≡ self.old)) }
        ensures told { OnOk result (WereTold self.old.links self.new.links self.new.log) }
        ensures refused { IfErr result (λ refusal.
            (is_linked self.old.log.tree key ≡ true) × (unlink_cause self.old.log.tree key ≡ Some refusal)
            × (self.new ≡ self.old)) }
    {
        let _ = self.state.root();
        let left = place_left(&self.looks, &self.state, key);
        let unlinked = self.state.unlink(key)?;
        if unlinked {
            self.writer = publish_gone(&self.looks, self.writer.take(), left, key);
        }
        Ok(unlinked)
    }

    /// Makes the tree ready to hide a file, like [`State::may_hide`]. Nothing is published.
    pub fn may_hide(&mut self, key: Key) -> Result<(), Refusal>
        ensures readied { IfOk result (λ _.
            IsReadied self.old.log self.new.log (hide_cause self.old.log.tree key) key) }
        ensures refused { IfErr result (λ refusal.
            IsRefused self.old.log self.new.log (hide_cause self.old.log.tree key) refusal) }
        ensures untold { self.new.links ≡ self.old.links }
    {
        self.state.may_hide(key)
    }

    /// Hides a file like [`State::hide`], and withdraws its name from look-ups.
    ///
    /// Condition: [`LiveTree::may_hide`] made the tree ready for this key, and nothing has changed since.
    pub fn hide(&mut self, key: Key)
        requires ready { self.old.log.ready ≡ Some key }
        ensures accepted { IsAccepted self.old.log self.new.log (hide_cause self.old.log.tree key) (Hide key) }
        ensures told { WereTold self.old.links self.new.links self.new.log }
    {
        self.state.hide(key);
        self.writer = publish_one(&self.looks, self.writer.take(), &self.state, key);
    }

    /// Shows a hidden file again like [`State::show`], and publishes the file if it is live.
    pub fn show(&mut self, key: Key) -> bool
        ensures was_hidden { result ≡ hidden_in self.old.log.tree key }
        ensures accepted { MatchBool result
            (IsAccepted self.old.log self.new.log None (Show key))
            (self.new ≡ self.old) }
        ensures told { WereTold self.old.links self.new.links self.new.log }
    {
        let shown = self.state.show(key);
        if shown {
            self.writer = publish_one(&self.looks, self.writer.take(), &self.state, key);
        }
        shown
    }

    /// Compacts the stored commands like [`State::compact`]. Nothing is published.
    pub fn compact(&mut self) -> Result<(), Refusal>
        ensures compacted { IfOk result (λ _. IsCompacted self.old.log self.new.log) }
        ensures untold { self.new.links ≡ self.old.links }
        ensures refused { IfErr result (λ refusal. (refusal ≡ refusal_of.NoMemory) × (self.new ≡ self.old)) }
    {
        self.state.compact()
    }
}
