//! What the tree's lock guards, and its commands on one node.
ghost use Rattle.std.specs.Prelude.{◌≡◌, ◌<◌, IfOk, IfErr, IfSome, OnOk, OnErr, Some, None, is_some, true, false, not, slice_set};
ghost use Rattle.kf_core.specs.declared.key.Key.{Key};
ghost use Rattle.kf_core.specs.declared.command.Command.TheVariants.{Create, Activate, Rename, Unlink};
ghost use Rattle.kf_words.specs.declared.note.Note.TheVariants.{Did, Claimed};
ghost use Rattle.kf_shared.specs.Noted.{KeepsWords};
ghost use Rattle.kf_core.specs.declared.refusal.Refusal.TheVariants as refusal_of;
ghost use Rattle.kf_core.specs.Tree.{is_linked};
ghost use Rattle.kf_tree.specs.Causes.{linked_cause};
ghost use Rattle.kf_table.specs.Children.{is_there_already};
ghost use Rattle.kf_tree.specs.TreeLogs.{IsAccepted, IsRefused};
ghost use Rattle.kf_words.specs.Nodes.{KeepsNodes, IsVacant, UnlinkAnswer, WasPinned, sight_in};
ghost use Rattle.kf_words.specs.Made.{WereLoaded};
ghost use Rattle.kf_live.specs.Live.{Say};
ghost use Rattle.kf_live.specs.Lookers.{links_seen};
ghost use Rattle.kf_shared.specs.LookUps.{IsLedInRun};
ghost use Rattle.kf_shared.specs.Locked.{IsWhole, Adds, Created, CreateRefused, BornLowest, move_cause, IsHoldOfNode, HoldRefused, Unchanged, UnlinkDone, UnlinkRefused, is_claimed, was_given};

use crate::marking::rise_each;
use crate::naming::Naming;
use crate::noting::{note_claim, note_last};
use kf_core::{Key, Node, Refusal};
use kf_live::{LiveTree, Lookup};
use kf_tree::State;
use kf_words::{Counts, Drained, Hold, Master};
use std::alloc::Global;
use std::marker::{Model, PhantomData};

/// What the tree's lock guards: the tree with its commands, the Master of the words, and for each slot the
/// generation that a self-removal claimed last.
pub struct Locked<N: Naming> {
    pub(crate) alloc: Global,
    pub(crate) state: LiveTree,
    pub(crate) master: Master,
    pub(crate) claims: Vec<u32>,
    pub(crate) name: PhantomData<N>,
}

/// Drops what the lock guards in one place. So a crate that drops a tree or an `Editor` need not prove once
/// more that each part of the tree can be dropped.
impl<N: Naming> Drop for Locked<N> {
    fn drop(self) {
        let Locked {
            alloc: _,
            state: _,
            master: _,
            claims: _,
            name: _,
        } = self;
    }
}

impl<N: Naming> Model for Locked<N> {
    ghost use Rattle.kf_words.specs.Notes.{history_of};
    ghost use Rattle.kf_shared.specs.Locked.{Locked, IsTied};
    ghost use Rattle.kf_shared.specs.Links.{AreOfRun};
    ghost use Rattle.kf_shared.specs.Noted.{IsNoted};

    ghost Value = { Locked };

    ghost view = { λ s. record {
      state = s.state.log;
      links = s.state.links;
      master = s.master;
      claims = s.claims.items;
    } };

    ghost invariant = { λ s. IsTied N.table s.state.log s.master s.claims.items
        × (IsNoted s.state.log s.claims.items (history_of s.master.seen)
        × AreOfRun s.state.log.root s.state.links (history_of s.master.seen)) };
}

/// Writes the claim of a key to its slot. Returns false if the slot's last claim was already of this key.
fn put_claim(claims: &mut Vec<u32>, key: Key) -> bool
    ensures first { result ≡ not (is_claimed claims.old.items key) }
    ensures claimed { claims.new.items ≡ slice_set claims.old.items key.slot key.generation }
{
    match claims.get_mut(key.slot as usize) {
        Some(last) => {
            let first = *last != key.generation;
            *last = key.generation;
            first
        }
        None => true,
    }
}

impl<N: Naming> Locked<N> {
    /// The tree with its stored commands.
    pub fn state(&self) -> &State
        ensures same { result.now ≡ self.now.state }
        ensures whole { IsWhole N.table self.now }
        ensures led { IsLedInRun self.now }
    {
        let _ = self.state.root();
        self.state.state()
    }

    /// Makes a looker, which finds names without the lock, and has now seen all that the tree says. None of
    /// its look-ups finds an earlier state than this.
    ///
    /// Refusal: NoMemory, if the words for look-ups can have no further owner.
    pub fn looker(&mut self) -> Result<Lookup, Refusal>
        ensures told { IfOk result
            (λ looker. 0 < looker.slots → Say (links_seen looker) self.old.state.tree) }
        ensures seen { IfOk result
            (λ looker. 0 < looker.slots → links_seen looker ≡ self.old.links) }
        ensures root { IfOk result (λ looker. looker.root ≡ self.old.state.root) }
        ensures same { self.new ≡ self.old }
        ensures refused { IfErr result (λ refusal. refusal ≡ refusal_of.NoMemory) }
    {
        self.state.looker()
    }

    /// Links a new node in a slot that the search for a free one finds. If the node is refused whatever its
    /// key is, no slot is searched.
    pub fn create(
        &mut self,
        parent: Key,
        name: &[u8],
        node: Node,
        live: bool,
    ) -> Result<Key, Refusal>
        ensures accepted { IfOk result (λ key. Created self.old self.new parent name.now node live key) }
        ensures next { IfOk result (λ key. IsVacant self.old.master.view key) }
        ensures lowest { IfOk result (λ key. BornLowest self.old.master.view self.new.master.view key.slot) }
        ensures noted { IfOk result
            (λ key. Adds self.old self.new (Did (Create key parent name.now node live))) }
        ensures refused { IfErr result
            (λ refusal. CreateRefused self.old self.new parent name.now node refusal) }
        ensures same { OnErr result (Unchanged self.old self.new) }
        ensures claims { self.new.claims ≡ self.old.claims }
    {
        let _ = self.state.root();
        if let Some(fault) = self.state.create_fault(parent, name, node) {
            return Err(fault);
        }
        let next = self.master.free_key();
        let Some(key) = next else {
            return Err(Refusal::NoSpace);
        };
        self.state.create_under(key, parent, name, node, live)?;
        note_last(&mut self.master, &self.state);
        self.master.born(key, node);
        if live {
            self.master.activate(key);
        }
        Ok(key)
    }

    /// Activates each node of the subtree that is not doomed.
    pub fn activate(&mut self, key: Key) -> Result<(), Refusal>
        ensures accepted { IfOk result
            (λ _. IsAccepted self.old.state self.new.state (linked_cause self.old.state.tree key)
            (Activate key)) }
        ensures noted { OnOk result (Adds self.old self.new (Did (Activate key))) }
        ensures refused { IfErr result
            (λ refusal. IsRefused self.old.state self.new.state
            (linked_cause self.old.state.tree key) refusal) }
        ensures claims { self.new.claims ≡ self.old.claims }
        ensures same { OnErr result (self.new ≡ self.old) }
    {
        let order = self.state.post_order(key)?;
        self.state.activate_in_order(key, order.as_slice())?;
        note_last(&mut self.master, &self.state);
        rise_each(&mut self.master, order.as_slice());
        Ok(())
    }

    /// Moves a node into a directory, under a name.
    pub fn rename(&mut self, key: Key, dir: Key, name: &[u8]) -> Result<(), Refusal>
        ensures no_cause { IfOk result (λ _. move_cause self.old key dir name.now ≡ None) }
        ensures stays { IfOk result
            (λ _. is_there_already self.old.state.tree key dir name.now ≡ true →
            self.new.state ≡ self.old.state) }
        ensures accepted { IfOk result (λ _. is_there_already self.old.state.tree key dir name.now ≡ false →
            IsAccepted self.old.state self.new.state (move_cause self.old key dir name.now)
            (Rename key dir name.now)) }
        ensures noted { IfOk result (λ _. is_there_already self.old.state.tree key dir name.now ≡ false →
            Adds self.old self.new (Did (Rename key dir name.now))) }
        ensures unnoted { IfOk result (λ _. is_there_already self.old.state.tree key dir name.now ≡ true →
            self.new.master ≡ self.old.master) }
        ensures refused { IfErr result
            (λ refusal. IsRefused self.old.state self.new.state
            (move_cause self.old key dir name.now) refusal) }
        ensures same_place { IfErr result (λ refusal. refusal ≡ refusal_of.NoMemory →
            is_there_already self.old.state.tree key dir name.now ≡ false) }
        ensures claims { self.new.claims ≡ self.old.claims }
        ensures words { KeepsWords self.old.master self.new.master }
        ensures kept { OnErr result (self.new.master ≡ self.old.master) }
    {
        let before = self.state.state().stored();
        self.state.rename(key, dir, name)?;
        if self.state.state().stored() != before {
            note_last(&mut self.master, &self.state);
        }
        Ok(())
    }

    /// Takes a new hold of a linked node.
    pub fn hold(&mut self, key: Key) -> Result<Hold, Refusal>
        ensures hold { IfOk result (λ hold. IsHoldOfNode N.table self.old.state.tree key hold) }
        ensures pinned { OnOk result (WasPinned self.old.master.view key.slot self.new.master.view) }
        ensures refused { IfErr result (λ refusal. HoldRefused self.old self.new key refusal) }
        ensures state { self.new.state ≡ self.old.state }
        ensures words { KeepsNodes self.old.master self.new.master }
        ensures claims { self.new.claims ≡ self.old.claims }
    {
        if !self.is_linked(key) {
            return Err(Refusal::NoEntry);
        }
        self.master.pin(key)
    }

    /// How many holds and users a linked node has, by one load of each of the two words of its slot. Returns
    /// None, without a word step, if the node is not linked.
    pub fn counts(&mut self, key: Key) -> Option<Counts>
        ensures linked { is_some result ≡ is_linked self.old.state.tree key }
        ensures counted { IfSome result
            (λ counts. WereLoaded key.slot counts (sight_in self.old.master) (sight_in self.new.master)) }
        ensures same { Unchanged self.old self.new }
    {
        self.master.counts(key)
    }

    /// Takes a drained node out of the tree. Returns false if the node is no longer linked.
    ///
    /// Condition: the receipt is of this tree's table.
    pub fn unlink(&mut self, drained: &Drained) -> Result<bool, Refusal>
        requires table { drained.now.table ≡ N.table }
        ensures linked { IfOk result (λ unlinked. is_linked self.old.state.tree drained.now.key ≡ unlinked) }
        ensures accepted { IfOk result (λ unlinked. UnlinkDone self.old self.new drained.now.key unlinked) }
        ensures drained { IfOk result
            (λ unlinked. unlinked ≡ true →
            UnlinkAnswer self.old.master.view drained.now.key.slot true self.new.master.view) }
        ensures noted { IfOk result
            (λ unlinked. unlinked ≡ true → Adds self.old self.new (Did (Unlink drained.now.key))) }
        ensures still_linked { IfErr result (λ _. is_linked self.old.state.tree drained.now.key ≡ true) }
        ensures refused { IfErr result (λ refusal. UnlinkRefused self.old self.new drained.now.key refusal) }
        ensures claims { self.new.claims ≡ self.old.claims }
    {
        let key = drained.key();
        if !self.state.may_unlink(key)? {
            return Ok(false);
        }
        if !self.master.unlink(drained) {
            return Err(Refusal::Busy);
        }
        self.state.unlink(key)?;
        note_last(&mut self.master, &self.state);
        Ok(true)
    }

    /// Claims the self-removal of a node. Returns false if the slot's last claim was already of this node.
    pub fn claim(&mut self, key: Key) -> bool
        ensures first { result ≡ not (is_claimed self.old.claims key) }
        ensures claimed { self.new.claims ≡ slice_set self.old.claims key.slot key.generation }
        ensures state { self.new.state ≡ self.old.state }
        ensures master { KeepsWords self.old.master self.new.master }
        ensures noted { Adds self.old self.new (Claimed key) }
    {
        let first = put_claim(&mut self.claims, key);
        note_claim(&mut self.master, key);
        first
    }

    /// Whether the slot of a key has had the key's generation, perhaps before the tree was made. It makes no
    /// word step.
    pub fn was_given(&self, key: Key) -> bool
        ensures { result ≡ was_given self.now.master.view key }
    {
        match self.master.last(key.slot) {
            Some(last) => 0 < key.generation && key.generation <= last,
            None => false,
        }
    }

    /// Whether a node is linked, which the tree and the words agree on. It makes no word step.
    pub(crate) fn is_linked(&self, key: Key) -> bool
        ensures { result ≡ is_linked self.now.state.tree key }
    {
        self.master.marks(key).is_some()
    }
}
