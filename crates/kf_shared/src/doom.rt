//! The doom of a subtree: first the holds of all its nodes, then the marks.
ghost use Rattle.std.specs.Prelude.{◌≡◌, ◌≢◌, ◌<◌, ◌≤◌, ◌+◌, ◌++◌, ◌∷◌, [], IfOk, IfErr, OnOk, OnErr, All, true, false, not, vec_capacity, vec_len, slice_set};
ghost use Rattle.kf_core.specs.declared.command.Command.TheVariants.{Doom};
ghost use Rattle.kf_core.specs.declared.caller.Phase.TheVariants as phase_of;
ghost use Rattle.kf_core.specs.declared.refusal.Refusal.TheVariants as refusal_of;
ghost use Rattle.kf_core.specs.Keys.{same_key};
ghost use Rattle.kf_core.specs.PostOrder.{IsPostOrder};
ghost use Rattle.kf_core.specs.Tree.{is_linked};
ghost use Rattle.kf_tree.specs.Causes.{doom_cause};
ghost use Rattle.kf_tree.specs.TreeLogs.{IsAccepted};
ghost use Rattle.kf_words.specs.Callers.{Handle, IsSameSeat, having_seen, seat_view};
ghost use Rattle.kf_words.specs.Made.{WasABreakThenWake};
ghost use Rattle.kf_words.specs.Nodes.{IsLastKey, KeepsNodes};
ghost use Rattle.kf_words.specs.declared.note.Note.TheVariants.{Did};
ghost use mathlib.Core.List.{IsPrefix};
ghost use Rattle.kf_words.specs.Notes.{history_of};
ghost use Rattle.kf_shared.specs.Locked.{Adds, Unchanged, history, is_claimed};
ghost use Rattle.kf_shared.specs.Removal.{keys_of, IsNew, AreHolds, DoomHolds, DoomDone, DoomMarked, DoomNoted, SelfDoomNoted, CameAfter, EndsSeeing, SawItsDoom, DoomGivenUp, DoomRefused, HoldsInRefused, SelfRemovalRefused};

use crate::locked::Locked;
use crate::marking::doom_each;
use crate::naming::Naming;
use crate::noting::note_last;
use crate::pinning::{alone, alone_with_room, full_or_no_memory, pin_each, release_each};
use kf_core::{Key, Refusal};
use kf_words::{Call, Hold, Parted};

impl<N: Naming> Locked<N> {
    /// Why the doom of a linked node is refused after memory was refused: TooManyHolds if a node below is
    /// found full, NoMemory if each is found to have room.
    fn full_or_no_memory(&mut self, key: Key) -> Refusal
        requires linked { is_linked self.old.state.tree key ≡ true }
        requires not_root { same_key key self.old.state.root ≡ false }
        ensures refused { DoomRefused self.old self.new key result }
        ensures state { self.new.state ≡ self.old.state }
        ensures same { Unchanged self.old self.new }
    {
        full_or_no_memory(self.state.state(), &mut self.master, key)
    }

    /// The refusal that a self-removal returns. It is NoMemory only if no node of the subtree, the call's own
    /// included, is found full.
    fn memory_last(&mut self, key: Key, refusal: Refusal) -> Refusal
        requires last { refusal ≡ refusal_of.NoMemory → IsLastKey self.old.master.view key }
        ensures memory { refusal ≡ refusal_of.NoMemory →
            HoldsInRefused self.old.state.tree key self.new.master.view result }
        ensures other { refusal ≢ refusal_of.NoMemory → (result ≡ refusal) × (self.new ≡ self.old) }
        ensures same { Unchanged self.old self.new }
    {
        if refusal != Refusal::NoMemory {
            return refusal;
        }
        if !self.master.room(key) {
            return Refusal::TooManyHolds;
        }
        full_or_no_memory(self.state.state(), &mut self.master, key)
    }

    /// The refusal that the doom of a linked node returns. It is NoMemory only if no node below is found
    /// full.
    fn memory_last_below(&mut self, key: Key, refusal: Refusal) -> Refusal
        requires linked { is_linked self.old.state.tree key ≡ true }
        requires given_up { DoomGivenUp self.old.state key self.old.master.view refusal }
        ensures refused { DoomRefused self.old self.new key result }
        ensures same { Unchanged self.old self.new }
    {
        if refusal != Refusal::NoMemory {
            return refusal;
        }
        self.full_or_no_memory(key)
    }

    /// The post-order of a node's subtree, and a new hold of each node below it. Nothing is marked yet.
    fn pin_below(&mut self, key: Key) -> Result<(Vec<Key>, Vec<Hold>), Refusal>
        requires linked { is_linked self.old.state.tree key ≡ true }
        ensures not_root { OnOk result (same_key key self.old.state.root ≡ false) }
        ensures order { IfOk result (λ r. IsPostOrder self.old.state.tree key r.0.items) }
        ensures below { IfOk result (λ r. r.0.items ≡ keys_of r.1.items ++ key ∷ []) }
        ensures new { IfOk result (λ r. All (IsNew self.old.master) r.1.items) }
        ensures room { IfOk result (λ r. vec_len r.1 < vec_capacity r.1) }
        ensures given_up { IfErr result
            (λ refusal. DoomGivenUp self.old.state key self.new.master.view refusal) }
        ensures state { self.new.state ≡ self.old.state }
        ensures words { KeepsNodes self.old.master self.new.master }
        ensures claims { self.new.claims ≡ self.old.claims }
    {
        self.state.may_doom(key)?;
        let order = self.state.post_order(key)?;
        let below = &order.as_slice()[..order.len() - 1];
        let pins = pin_each(&mut self.master, self.alloc, below)?;
        Ok((order, pins))
    }

    /// Dooms the subtree, and returns the pins and, as the last, the hold of its top.
    fn mark(
        &mut self,
        order: &[Key],
        mut pins: Vec<Hold>,
        mut hold: Hold,
    ) -> Result<Vec<Hold>, (Hold, Refusal)>
        requires table { hold.table ≡ N.table }
        requires order { IsPostOrder self.old.state.tree hold.key order.now }
        requires linked { is_linked self.old.state.tree hold.key ≡ true }
        requires not_root { same_key hold.key self.old.state.root ≡ false }
        requires room { vec_len pins < vec_capacity pins }
        ensures holds { IfOk result
            (λ holds. holds.items ≡ pins.items ++ having_seen self.new.master.seen hold ∷ []) }
        ensures after { OnOk result (IsPrefix (history_of hold.seen) (history self.old)) }
        ensures done { IfOk result
            (λ _. IsAccepted self.old.state self.new.state
            (doom_cause self.old.state.tree self.old.state.root hold.key) (Doom hold.key)) }
        ensures noted { OnOk result (Adds self.old self.new (Did (Doom hold.key))) }
        ensures back { IfErr result (λ r. (r.0 ≡ hold) × (r.1 ≡ refusal_of.NoMemory)) }
        ensures same { OnErr result (self.new ≡ self.old) }
        ensures claims { self.new.claims ≡ self.old.claims }
    {
        let key = hold.key();
        match self.state.doom_in_order(key, order) {
            Ok(()) => {
                self.master.meet(&mut hold); // what it has seen came before the doom
                note_last(&mut self.master, &self.state);
                doom_each(&mut self.master, order);
                self.master.meet(&mut hold); // and now it has seen the doom
                pins.push_reserved(hold);
                Ok(pins)
            }
            Err(refusal) => {
                release_each(pins);
                Err((hold, refusal))
            }
        }
    }

    /// Dooms the subtree of a linked node, and gives up at the first refusal that it meets. So NoMemory does
    /// not mean yet that each node below has room.
    fn doom_linked(&mut self, hold: Hold) -> Result<Vec<Hold>, (Hold, Refusal)>
        requires table { hold.table ≡ N.table }
        requires linked { is_linked self.old.state.tree hold.key ≡ true }
        ensures order { IfOk result
            (λ holds. IsPostOrder self.old.state.tree hold.key (keys_of holds.items)) }
        ensures holds { IfOk result (λ holds. AreHolds self.old.master hold holds.items) }
        ensures done { OnOk result (IsAccepted self.old.state self.new.state
            (doom_cause self.old.state.tree self.old.state.root hold.key) (Doom hold.key)) }
        ensures noted { OnOk result (Adds self.old self.new (Did (Doom hold.key))) }
        ensures after { OnOk result (IsPrefix (history_of hold.seen) (history self.old)) }
        ensures seen { IfOk result (λ holds. EndsSeeing holds.items self.new.master.seen) }
        ensures back { IfErr result (λ r. r.0 ≡ hold) }
        ensures given_up { IfErr result
            (λ r. DoomGivenUp self.old.state hold.key self.new.master.view r.1) }
        ensures state { OnErr result (self.new.state ≡ self.old.state) }
        ensures words { OnErr result (KeepsNodes self.old.master self.new.master) }
        ensures claims { self.new.claims ≡ self.old.claims }
    {
        match self.pin_below(hold.key()) {
            Ok((order, pins)) => match self.mark(order.as_slice(), pins, hold) {
                Ok(holds) => Ok(holds),
                Err(refused) => Err(refused),
            },
            Err(refusal) => Err((hold, refusal)),
        }
    }

    /// Dooms the subtree of the hold's node, and returns a hold of each of its nodes, in post-order, the
    /// given one last.
    ///
    /// Condition: the hold is of this table.
    ///
    /// Refusals, in order: Invalid (the root), TooManyHolds (a node below was found with the greatest number
    /// of holds), NoMemory. After a refusal nothing is marked, and the hold is returned.
    pub fn doom(&mut self, hold: Hold) -> Result<Vec<Hold>, (Hold, Refusal)>
        requires table { hold.table ≡ N.table }
        ensures order { IfOk result (λ holds. DoomHolds self.old.state.tree hold holds.items) }
        ensures holds { IfOk result (λ holds. AreHolds self.old.master hold holds.items) }
        ensures done { IfOk result (λ _. DoomDone self.old self.new hold.key) }
        ensures noted { OnOk result (DoomNoted self.old self.new hold.key) }
        ensures after { OnOk result (CameAfter self.old hold) }
        ensures seen { IfOk result (λ holds. SawItsDoom self.old self.new hold holds.items) }
        ensures back { IfErr result (λ r. r.0 ≡ hold) }
        ensures refused { IfErr result (λ r. DoomRefused self.old self.new hold.key r.1) }
        ensures same { OnErr result (Unchanged self.old self.new) }
        ensures claims { self.new.claims ≡ self.old.claims }
    {
        let key = hold.key();
        if !self.is_linked(key) {
            return alone(self.alloc, hold);
        }
        match self.doom_linked(hold) {
            Ok(holds) => Ok(holds),
            Err((back, refusal)) => Err((back, self.memory_last_below(key, refusal))),
        }
    }

    /// Like `doom_linked`, but makes room for a receipt for each hold before anything is marked.
    fn start_linked(
        &mut self,
        hold: Hold,
        receipts: &mut Vec<Parted>,
    ) -> Result<Vec<Hold>, (Hold, Refusal)>
        requires table { hold.table ≡ N.table }
        requires linked { is_linked self.old.state.tree hold.key ≡ true }
        ensures order { IfOk result
            (λ holds. IsPostOrder self.old.state.tree hold.key (keys_of holds.items)) }
        ensures holds { IfOk result (λ holds. AreHolds self.old.master hold holds.items) }
        ensures done { OnOk result (IsAccepted self.old.state self.new.state
            (doom_cause self.old.state.tree self.old.state.root hold.key) (Doom hold.key)) }
        ensures noted { OnOk result (Adds self.old self.new (Did (Doom hold.key))) }
        ensures after { OnOk result (IsPrefix (history_of hold.seen) (history self.old)) }
        ensures seen { IfOk result (λ holds. EndsSeeing holds.items self.new.master.seen) }
        ensures room { IfOk result
            (λ holds. vec_len receipts.new + vec_len holds ≤ vec_capacity receipts.new) }
        ensures receipts { receipts.new.items ≡ receipts.old.items }
        ensures back { IfErr result (λ r. r.0 ≡ hold) }
        ensures given_up { IfErr result
            (λ r. DoomGivenUp self.old.state hold.key self.new.master.view r.1) }
        ensures state { OnErr result (self.new.state ≡ self.old.state) }
        ensures words { OnErr result (KeepsNodes self.old.master self.new.master) }
        ensures claims { self.new.claims ≡ self.old.claims }
    {
        match self.pin_below(hold.key()) {
            Ok((order, pins)) => {
                if receipts.reserve(pins.len() + 1).is_err() {
                    release_each(pins);
                    return Err((hold, Refusal::NoMemory));
                }
                match self.mark(order.as_slice(), pins, hold) {
                    Ok(holds) => Ok(holds),
                    Err(refused) => Err(refused),
                }
            }
            Err(refusal) => Err((hold, refusal)),
        }
    }

    /// Like `doom`, but makes room for a receipt for each hold before anything is marked.
    pub(crate) fn start_removal(
        &mut self,
        hold: Hold,
        receipts: &mut Vec<Parted>,
    ) -> Result<Vec<Hold>, (Hold, Refusal)>
        requires table { hold.table ≡ N.table }
        ensures order { IfOk result (λ holds. DoomHolds self.old.state.tree hold holds.items) }
        ensures holds { IfOk result (λ holds. AreHolds self.old.master hold holds.items) }
        ensures done { IfOk result (λ _. DoomDone self.old self.new hold.key) }
        ensures noted { OnOk result (DoomNoted self.old self.new hold.key) }
        ensures after { OnOk result (CameAfter self.old hold) }
        ensures seen { IfOk result (λ holds. SawItsDoom self.old self.new hold holds.items) }
        ensures room { IfOk result
            (λ holds. vec_len receipts.new + vec_len holds ≤ vec_capacity receipts.new) }
        ensures receipts { receipts.new.items ≡ receipts.old.items }
        ensures back { IfErr result (λ r. r.0 ≡ hold) }
        ensures refused { IfErr result (λ r. DoomRefused self.old self.new hold.key r.1) }
        ensures same { OnErr result (Unchanged self.old self.new) }
        ensures claims { self.new.claims ≡ self.old.claims }
    {
        let key = hold.key();
        if !self.is_linked(key) {
            return alone_with_room(self.alloc, hold, receipts);
        }
        match self.start_linked(hold, receipts) {
            Ok(holds) => Ok(holds),
            Err((back, refusal)) => Err((back, self.memory_last_below(key, refusal))),
        }
    }

    /// Takes a new hold of a call's node, and starts the removal with it. NoMemory does not mean yet that
    /// each node of the subtree has room.
    fn start_held(&mut self, call: &Call, receipts: &mut Vec<Parted>) -> Result<Vec<Hold>, Refusal>
        requires table { call.now.table ≡ N.table }
        requires not_root { same_key call.now.key self.old.state.root ≡ false }
        ensures holds { IfOk result
            (λ holds. (hold : Handle) × (hold.key ≡ call.now.key) × IsNew self.old.master hold
            × AreHolds self.old.master hold holds.items × DoomHolds self.old.state.tree hold holds.items) }
        ensures done { OnOk result (DoomMarked self.old self.new call.now.key) }
        ensures noted { OnOk result (DoomNoted self.old self.new call.now.key) }
        ensures room { IfOk result
            (λ holds. vec_len receipts.new + vec_len holds ≤ vec_capacity receipts.new) }
        ensures receipts { receipts.new.items ≡ receipts.old.items }
        ensures last { IfErr result
            (λ refusal. refusal ≡ refusal_of.NoMemory → IsLastKey self.old.master.view call.now.key) }
        ensures refused { IfErr result (λ refusal. refusal ≢ refusal_of.NoMemory →
            SelfRemovalRefused self.old self.new call.now.key refusal) }
        ensures same { OnErr result (Unchanged self.old self.new) }
        ensures claims { self.new.claims ≡ self.old.claims }
    {
        let hold = self.master.pin_held(call)?;
        match self.start_removal(hold, receipts) {
            Ok(holds) => Ok(holds),
            Err((hold, refusal)) => {
                hold.release();
                Err(refusal)
            }
        }
    }

    /// Starts the removal of a call's own node: pins, marks, claims, and breaks the call's protection.
    pub(crate) fn start_self_removal(
        &mut self,
        call: &mut Call,
        receipts: &mut Vec<Parted>,
    ) -> Result<(bool, Vec<Hold>), Refusal>
        requires table { call.old.table ≡ N.table }
        requires running { call.old.phase ≡ phase_of.Running }
        ensures seat { IsSameSeat call.old call.new }
        ensures broken { OnOk result (call.new.phase ≡ phase_of.Broken) }
        ensures made { OnOk result (WasABreakThenWake (seat_view call.old) (seat_view call.new)) }
        ensures kept { OnErr result (call.new ≡ call.old) }
        ensures holds { IfOk result
            (λ r. (hold : Handle) × (hold.key ≡ call.old.key) × IsNew self.old.master hold
            × AreHolds self.old.master hold r.1.items × DoomHolds self.old.state.tree hold r.1.items) }
        ensures first { IfOk result (λ r. r.0 ≡ not (is_claimed self.old.claims call.old.key)) }
        ensures claimed { OnOk result
            (self.new.claims ≡ slice_set self.old.claims call.old.key.slot call.old.key.generation) }
        ensures done { IfOk result (λ _. DoomMarked self.old self.new call.old.key) }
        ensures noted { OnOk result (SelfDoomNoted self.old self.new call.old.key) }
        ensures room { IfOk result (λ r. vec_len receipts.new + vec_len r.1 ≤ vec_capacity receipts.new) }
        ensures receipts { receipts.new.items ≡ receipts.old.items }
        ensures refused { IfErr result
            (λ refusal. SelfRemovalRefused self.old self.new call.old.key refusal) }
        ensures same { OnErr result (Unchanged self.old self.new) }
    {
        let key = call.key();
        if key == self.state.root() {
            return Err(Refusal::Invalid);
        }
        match self.start_held(call, receipts) {
            Ok(holds) => {
                let first = self.claim(key);
                call.break_protection();
                Ok((first, holds))
            }
            Err(refusal) => Err(self.memory_last(key, refusal)),
        }
    }
}
