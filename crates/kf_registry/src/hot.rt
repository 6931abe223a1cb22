//! Hot values: values that threads call through a gate, and that their owner takes back.
ghost use Rattle.std.specs.Prelude.{◌≡◌, ◌≤◌, ◌<◌, ◌⊎◌, IfErr, IfOk, length, true};
ghost use Rattle.std.specs.Arc.{arc_value};
ghost use Rattle.kf_core.specs.declared.command.Command.TheVariants.{Doom};
ghost use Rattle.kf_core.specs.declared.caller.Phase.TheVariants as phase_of;
ghost use Rattle.kf_core.specs.declared.refusal.Refusal.TheVariants as refusal_of;
ghost use Rattle.kf_gates.specs.States.{IsLanes};
ghost use Rattle.kf_words.specs.declared.note.Note.TheVariants.{Did};
ghost use Rattle.kf_shared.specs.Locked.{Adds, Locked, history};
ghost use Rattle.kf_shared.specs.Sections.{Last};
ghost use Rattle.kf_registry.specs.Hot.{IsOpen, WasClosed};
ghost use Rattle.kf_registry.specs.Receipts.{IsHot, WasPublished, WasRemovedAfter, WasTaken, hot_node};
ghost use Rattle.kf_registry.specs.Refusals.{HotCallerRefused, HotRefused, HotTakeCause, WasFound};

use crate::caller::ValueCaller;
use crate::hot_caller::HotCaller;
use crate::lanes::{HotEntry, HotValue, Lanes, new_owner, only};
use crate::nodes::{HOT, create_node, is_hot};
use crate::published::{Published, Stored, name_of};
use crate::registry::Registry;
use crate::taking::{Taken, last_of};
use kf_core::{Key, Refusal};
use kf_gates::{Closed, Keeper, MOST_LANES, Pass};
use kf_shared::{Editor, Naming, Removing};
use std::alloc::Global;
use std::marker::{Model, PhantomData};
use std::sync::{Arc, Wait};

/// The owner's handle on a hot value. It must be passed to [`Registry::take_hot`].
pub struct Hot<N: Naming, T: Published> {
    keeper: Keeper<()>,
    key: Key,
    pub(crate) own: Arc<HotValue<T>>,
    pub(crate) lanes: Arc<Lanes<T>>,
    name: PhantomData<N>,
}

impl<N: Naming, T: Published> Model for Hot<N, T> {
    ghost use Rattle.std.specs.Arc.{arc_value};
    ghost use Rattle.kf_registry.specs.Hot.{HotState};

    ghost Value = { HotState T };

    ghost view = { λ h. record {
      keeper = h.keeper;
      key = h.key;
      path = (arc_value h.own).path.items;
      value = (arc_value h.own).value;
    } };
}

/// What a hot value needs before it has a node: a gate that was never opened, its first pass, and an owner of
/// the value for each lane.
struct NewHot<T: Published> {
    closed: Closed,
    first: Pass,
    own: Arc<HotValue<T>>,
    lanes: Arc<Lanes<T>>,
    shared: Arc<Lanes<T>>,
}

/// The new lanes of a value, as two `Arc`s of them.
///
/// Condition: there is at least one lane.
///
/// Refusal: NoMemory. Then no lane is left that owns the value.
fn new_lanes<T: Published>(
    alloc: Global,
    own: &Arc<HotValue<T>>,
    lanes: u64,
) -> Result<(Arc<Lanes<T>>, Arc<Lanes<T>>), Refusal>
    requires some { 0 < lanes }
    ensures refused { IfErr result (λ why. why ≡ refusal_of.NoMemory) }
{
    let lanes = Arc::new(alloc, Lanes::new(alloc, own, lanes)?)?;
    let shared = Arc::try_clone(&lanes)?;
    Ok((lanes, shared))
}

impl<T: Published> NewHot<T> {
    /// All that the value needs to be called through this many lanes.
    ///
    /// Conditions: the value suits the path, and the path has at most 256 bytes.
    ///
    /// Refusals, in order: Invalid (no lane, or more than 65,535), NoMemory. Then the value is returned.
    fn new<R: Wait>(
        rt: &R,
        alloc: Global,
        path: &[u8],
        value: T,
        lanes: u64,
    ) -> Result<NewHot<T>, (T, Refusal)>
        requires suits { T.suits path.now value ≡ true }
        requires fits { length path.now ≤ 256 }
        ensures few { IfOk result (λ _. IsLanes lanes) }
        ensures value { IfOk result (λ new. (arc_value new.own).value ≡ value) }
        ensures path { IfOk result (λ new. (arc_value new.own).path.items ≡ path.now) }
        ensures closed { IfOk result
            (λ new. (new.closed.plan.number ≡ 0) × (new.closed.seat.gate.lanes ≡ lanes)) }
        ensures back { IfErr result (λ r. r.0 ≡ value) }
        ensures refused { IfErr result (λ r. ((IsLanes lanes → ⊥) × (r.1 ≡ refusal_of.Invalid))
            ⊎ (IsLanes lanes × (r.1 ≡ refusal_of.NoMemory))) }
    {
        if lanes == 0 || lanes > MOST_LANES {
            return Err((value, Refusal::Invalid));
        }
        let own = new_owner(alloc, path, value)?;
        let (kept, shared) = match new_lanes(alloc, &own, lanes) {
            Ok(made) => made,
            Err(why) => return Err((only(rt, own).into_value(), why)),
        };
        match Closed::new(alloc, lanes) {
            Ok((closed, first)) => Ok(NewHot {
                closed,
                first,
                own,
                lanes: kept,
                shared,
            }),
            Err(why) => {
                kept.clear(rt);
                Err((only(rt, own).into_value(), why))
            }
        }
    }

    /// Returns the value.
    fn into_value<R: Wait>(self, rt: &R) -> T
        ensures { result ≡ (arc_value self.own).value }
    {
        let NewHot {
            closed: _,
            first: _,
            own,
            lanes,
            shared: _,
        } = self;
        lanes.clear(rt);
        only(rt, own).into_value()
    }
}

/// Opens a gate for the first time.
///
/// Condition: the gate was never opened.
fn first_opening(closed: Closed) -> Keeper<()>
    requires new { closed.plan.number ≡ 0 }
    ensures open { IsOpen closed.seat.gate.lanes result }
{
    match closed.open(()) {
        Ok(keeper) => keeper,
        Err(_) => unreachable!(),
    }
}

impl<N: Naming, T: Published> Registry<N, T> {
    /// Opens the gate of a hot value whose node has this key, and fills the node's place.
    ///
    /// Condition: the gate was never opened.
    fn heat<R: Wait>(&self, rt: &R, key: Key, new: NewHot<T>) -> Hot<N, T>
        requires closed { new.closed.plan.number ≡ 0 }
        ensures key { result.key ≡ key }
        ensures value { result.value ≡ (arc_value new.own).value }
        ensures path { result.path ≡ (arc_value new.own).path.items }
        ensures open { IsOpen new.closed.seat.gate.lanes result.keeper }
    {
        let NewHot {
            closed,
            first,
            own,
            lanes,
            shared,
        } = new;
        let keeper = first_opening(closed);
        let entry = HotEntry::new(key, shared, keeper.number(), first);
        *self.place(key).write(rt) = Some(Stored::Hot(entry));
        Hot {
            keeper,
            key,
            own,
            lanes,
            name: PhantomData,
        }
    }

    /// Like [`Registry::publish`], but the value is one that many threads call at once. A thread that has a
    /// [`HotCaller`] calls the value through a gate of this many lanes. Callers in different lanes write to
    /// no word that they share. Other threads may call the value like any other. Only its owner takes it
    /// back, with [`Registry::take_hot`].
    ///
    /// Condition: the value suits the path.
    ///
    /// Refusals, in order: Invalid (the path does not have the form that `publish` asks for), NameTooLong
    /// (the name has more than 255 bytes), Invalid (no lane, or more than 65,535), NoMemory, Invalid (the
    /// name is not lawful), Exists, NoSpace (the registry already has the greatest number of values),
    /// NoMemory. After a refusal nothing is changed, and the value is returned.
    ///
    /// Context: takes the tree's lock; the caller must not hold it.
    pub fn publish_hot<R: Wait>(
        &self,
        rt: &R,
        by: &mut ValueCaller<N>,
        path: &[u8],
        value: T,
        lanes: u64,
    ) -> Result<Hot<N, T>, (T, Refusal)>
        requires suits { T.suits path.now value ≡ true }
        ensures published { IfOk result
            (λ hot. WasPublished hot_node path.now hot.key by.new.holder.holds.by) }
        ensures value { IfOk result (λ hot. (hot.value ≡ value) × (hot.path ≡ path.now)) }
        ensures open { IfOk result (λ hot. IsOpen lanes hot.keeper) }
        ensures back { IfErr result (λ r. r.0 ≡ value) }
        ensures refused { IfErr result (λ r. HotRefused path.now lanes by.new.holder.holds.by r.1) }
    {
        let name = match name_of(path) {
            Ok(name) => name,
            Err(why) => return Err((value, why)),
        };
        let new = NewHot::new(rt, self.alloc, path, value, lanes)?;
        let mut editor = by.lock(rt, &self.tree);
        match create_node(&mut editor, name, HOT) {
            Ok(key) => {
                let hot = self.heat(rt, key, new);
                by.holder.learn(&mut editor);
                Ok(hot)
            }
            Err(why) => Err((new.into_value(rt), why)),
        }
    }

    /// A caller with which a thread calls the hot value under a path. It uses the lane of this number, modulo
    /// the number of lanes. Each thread has its own caller and, if there are enough lanes, its own lane.
    ///
    /// Refusals, in order: Invalid, NameTooLong (as in [`Registry::publish`]); those of
    /// [`kf_tree::State::lookup`] (NoEntry: nothing is published there, or it is being taken); Invalid (the
    /// value is not hot); TooManyHolds (the gate has had 2^32 - 1 passes) or NoMemory. The contract also
    /// allows NoEntry for a node that was found. It would mean that the node's place is empty, but no call of
    /// this crate leaves a place so.
    ///
    /// Context: takes the tree's lock; the caller must not hold it.
    pub fn hot_caller<R: Wait>(
        &self,
        rt: &R,
        by: &mut ValueCaller<N>,
        path: &[u8],
        lane: u64,
    ) -> Result<HotCaller<T>, Refusal>
        ensures path { IfOk result (λ caller. caller.path ≡ path.now) }
        ensures refused { IfErr result (λ why. HotCallerRefused path.now by.new.holder.holds.by why) }
    {
        name_of(path)?;
        let editor = by.lock(rt, &self.tree);
        let key = editor.state().lookup(path)?;
        if !is_hot(editor.state(), key) {
            return Err(Refusal::Invalid);
        }
        match &*self.place(key).read(rt) {
            Some(Stored::Hot(hot)) if hot.key == key => hot.caller(rt, path, lane),
            _ => Err(Refusal::NoEntry),
        }
    }

    /// Ends the removal of a hot value's node: shuts the gate, unlocks, waits until nobody is inside the gate
    /// or the node, and empties all places.
    ///
    /// Condition: the last hold of the removal is of this value's node.
    fn cool<R: Wait>(
        &self,
        rt: &R,
        editor: Editor<'_, N>,
        hot: Hot<N, T>,
        removing: Removing<N>,
    ) -> Taken<T>
        requires last { Last (λ hold. hold.key ≡ hot.key) removing }
        ensures value { result.value ≡ hot.value }
        ensures suits { T.suits hot.path result.value ≡ true }
        ensures closed { WasClosed hot.keeper result.gate }
        ensures parted { result.receipt.phase ≡ phase_of.Parted }
        ensures key { result.receipt.key ≡ hot.key }
        ensures saw { (mid : Locked) → Adds mid editor.entry (Did (Doom hot.key)) →
            WasRemovedAfter (history mid) result.receipt }
    {
        let Hot {
            mut keeper,
            key,
            own,
            lanes,
            name: _,
        } = hot;
        keeper.shut();
        let draining = editor.end_removal(removing);
        let (closed, ()) = keeper.wait_closed(rt);
        let receipts = draining.finish(rt);
        let Some(receipt) = last_of(receipts) else {
            unreachable!()
        };
        *self.place(key).write(rt) = None;
        lanes.clear(rt);
        Taken {
            value: only(rt, own).into_value(),
            receipt,
            gate: Some(closed),
        }
    }

    /// Takes a hot value back: shuts its gate, waits until nobody is inside, and returns the value. Once the
    /// node is marked and the gate is shut, no call begins there. When this function returns, the path is
    /// free again.
    ///
    /// Refusals, in order: those of [`kf_tree::State::lookup`], NoEntry (the path names another node);
    /// TooManyHolds or NoMemory, whichever is met first. Of these, only TooManyHolds and NoMemory can occur.
    /// After a refusal the value is published as before, its gate is open, and `hot` is returned.
    ///
    /// Context: sleeps; takes the tree's lock; the caller must not hold it. It waits for all calls that are
    /// inside, so a closure that runs inside must not call it.
    pub fn take_hot<R: Wait>(
        &self,
        rt: &R,
        by: &mut ValueCaller<N>,
        hot: Hot<N, T>,
    ) -> Result<Taken<T>, (Hot<N, T>, Refusal)>
        ensures value { IfOk result (λ taken. taken.value ≡ hot.value) }
        ensures suits { IfOk result (λ taken. T.suits hot.path taken.value ≡ true) }
        ensures closed { IfOk result (λ taken. WasClosed hot.keeper taken.gate) }
        ensures taken { IfOk result (λ taken. WasTaken IsHot hot.path taken.receipt) }
        ensures key { IfOk result (λ taken. taken.receipt.key ≡ hot.key) }
        ensures back { IfErr result (λ r. r.0 ≡ hot) }
        ensures refused { IfErr result (λ r.
            WasFound by.new.holder.holds.by (HotTakeCause hot.path hot.key r.1)) }
    {
        let mut editor = by.lock(rt, &self.tree);
        let key = match editor.state().lookup(hot.own.path.as_slice()) {
            Ok(key) => key,
            Err(why) => return Err((hot, why)),
        };
        if key != hot.key || !is_hot(editor.state(), key) {
            return Err((hot, Refusal::NoEntry));
        }
        match editor.begin_removal_of(key) {
            Ok(removing) => Ok(self.cool(rt, editor, hot, removing)),
            Err(why) => Err((hot, why)),
        }
    }
}
