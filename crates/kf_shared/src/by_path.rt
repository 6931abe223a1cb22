//! Holds of the nodes that paths name, for one thread: without the tree's lock if possible, otherwise under
//! it.
ghost use Rattle.std.specs.Prelude.{◌≡◌, ◌<◌, ◌⊎◌, IfErr, IfOk, IfSome};
ghost use Rattle.kf_live.specs.Live.{Say};
ghost use Rattle.kf_live.specs.Lookers.{links_seen};
ghost use Rattle.kf_words.specs.Another.{StaysAs};
ghost use Rattle.kf_words.specs.Callers.{IsSameSeat, seat_view};
ghost use Rattle.kf_words.specs.Nodes.{KeepsNodes};
ghost use Rattle.kf_words.specs.Notes.{history_of};
ghost use Rattle.kf_words.specs.Pins.{IsHoldOf, WasHeldFor};
ghost use Rattle.kf_shared.specs.Finding.{IsSameHolder, LedTo, WasNamed, WasNotHeld};
ghost use Rattle.kf_shared.specs.Locked.{IsWhole, history};
ghost use Rattle.kf_shared.specs.Sections.{IsTaken};

use crate::editor::Editor;
use crate::locked::Locked;
use crate::naming::Naming;
use crate::tree::SharedTree;
use kf_core::Refusal;
use kf_live::Lookup;
use kf_words::{Hold, Holds};
use std::alloc::Global;
use std::marker::{Model, PhantomData};
use std::sync::Wait;

/// Makes holds of the nodes that paths name, for one thread. It has a looker of a tree, and a maker of holds
/// of the same tree, which keeps a hold of the root. Each thread has its own `PathHolder`.
///
/// In a tree that was not made `with_looks`, each hold takes the lock. A `PathHolder` must be passed to
/// `end`.
pub struct PathHolder<N: Naming> {
    looker: Lookup,
    holds: Holds,
    name: PhantomData<N>,
}

impl<N: Naming> Model for PathHolder<N> {
    ghost use Rattle.std.specs.Prelude.{◌≡◌};
    ghost use Rattle.kf_shared.specs.Finding.{PathHolderState};

    ghost Value = { PathHolderState };

    ghost view = { λ h. record { looker = h.looker; holds = h.holds } };

    ghost invariant = { λ h. h.holds.by.table ≡ N.table };
}

impl<N: Naming> Locked<N> {
    /// Lets a maker's own hold see the whole history.
    fn tell_maker(&mut self, holds: &mut Holds)
        requires table { holds.old.by.table ≡ N.table }
        ensures seat { IsSameSeat holds.old.by holds.new.by }
        ensures stays { StaysAs holds.old.by holds.new.by }
        ensures known { history_of holds.new.by.seen ≡ history self.old }
        ensures state { self.new.state ≡ self.old.state }
        ensures claims { self.new.claims ≡ self.old.claims }
        ensures words { KeepsNodes self.old.master self.new.master }
    {
        self.master.meet_maker(holds);
    }
}

impl<N: Naming> PathHolder<N> {
    /// Makes a holder for the tree of an editor. Its looker has now seen all that the tree says.
    ///
    /// Refusals: TooManyHolds (the root was found with the greatest number of holds), NoMemory.
    pub fn new(alloc: Global, editor: &mut Editor<'_, N>) -> Result<PathHolder<N>, Refusal>
        ensures told { IfOk result (λ holder.
            0 < holder.looker.slots → Say (links_seen holder.looker) editor.old.state.tree) }
        ensures root { IfOk result (λ holder. holder.looker.root ≡ editor.old.state.root) }
        ensures state { editor.new.state ≡ editor.old.state }
        ensures claims { editor.new.claims ≡ editor.old.claims }
    {
        let looker = editor.looker()?;
        let root = editor.state().root();
        let by = editor.hold(root)?;
        match Holds::new(alloc, by) {
            Ok(holds) => Ok(PathHolder {
                looker,
                holds,
                name: PhantomData,
            }),
            Err((by, refusal)) => {
                by.release();
                Err(refusal)
            }
        }
    }

    /// Makes a hold of the live node that a path names, without taking the tree's lock and without waiting. A
    /// look-up finds the node's key, and the maker counts a hold of this key. The path led to the node at the
    /// moment of the look-up, and the node was still linked when the hold was counted. So the hold is as good
    /// as one that was taken at the moment of the look-up, and no second look-up is needed. (The hold's
    /// `enter` says whether the node is live at a later moment.)
    ///
    /// None is not a refusal: `Lookup::look` found nothing, or `Holds::pin` refused. Ask under the lock then,
    /// as [`PathHolder::hold`] does.
    pub fn try_hold(&mut self, path: &[u8]) -> Option<Hold>
        ensures same { IsSameHolder self.old self.new }
        ensures table { IfSome result (λ hold. hold.table ≡ N.table) }
        ensures found { IfSome result (λ hold. LedTo self.new.looker path.now hold.key) }
        ensures hold { IfSome result (λ hold. IsHoldOf self.old.holds.by hold.key hold) }
        ensures made { IfSome result
            (λ hold. WasHeldFor hold.key (seat_view self.old.holds.by) (seat_view self.new.holds.by) hold) }
    {
        let sight = self.looker.look(path)?;
        match self.holds.pin(sight.found.key) {
            Ok(hold) => Some(hold),
            Err(_) => None,
        }
    }

    /// Lets the holder's own hold see the whole history, so it knows in which tree something is found under
    /// this lock.
    pub fn learn(&mut self, editor: &mut Editor<'_, N>)
        ensures looker { self.new.looker ≡ self.old.looker }
        ensures seat { IsSameSeat self.old.holds.by self.new.holds.by }
        ensures stays { StaysAs self.old.holds.by self.new.holds.by }
        ensures known { history_of self.new.holds.by.seen ≡ history editor.old }
        ensures state { editor.new.state ≡ editor.old.state }
        ensures claims { editor.new.claims ≡ editor.old.claims }
        ensures words { KeepsNodes editor.old.master editor.new.master }
    {
        editor.guard.tell_maker(&mut self.holds);
    }

    /// Makes a hold of the live node that a path names, under a lock that was just taken.
    fn hold_locked(&mut self, editor: &mut Editor<'_, N>, path: &[u8]) -> Result<Hold, Refusal>
        requires whole { IsWhole N.table editor.old }
        requires taken { IsTaken (history editor.old) }
        ensures looker { self.new.looker ≡ self.old.looker }
        ensures seat { IsSameSeat self.old.holds.by self.new.holds.by }
        ensures stays { StaysAs self.old.holds.by self.new.holds.by }
        ensures table { IfOk result (λ hold. hold.table ≡ N.table) }
        ensures named { IfOk result (λ hold. WasNamed path.now self.new.holds.by hold) }
        ensures refused { IfErr result (λ why. WasNotHeld path.now self.new.holds.by why) }
    {
        self.learn(editor);
        let key = editor.state().lookup(path)?;
        editor.hold(key)
    }

    /// Makes a hold of the live node that a path names, without the tree's lock if possible, otherwise under
    /// it. What it finds under the lock is what the tree had at the moment when the lock was taken, and the
    /// holder's own hold has seen the history up to that moment.
    ///
    /// Refusals, in order: those of [`kf_tree::State::lookup`]; TooManyHolds (the node was found with the
    /// greatest number of holds), NoMemory. They are found under the lock.
    ///
    /// Context: takes the tree's lock if [`PathHolder::try_hold`] finds nothing; the caller must not hold the
    /// lock.
    pub fn hold<R: Wait>(
        &mut self,
        rt: &R,
        tree: &SharedTree<N>,
        path: &[u8],
    ) -> Result<Hold, Refusal>
        ensures same { IsSameHolder self.old self.new }
        ensures table { IfOk result (λ hold. hold.table ≡ N.table) }
        ensures found { IfOk result
            (λ hold. LedTo self.new.looker path.now hold.key
            ⊎ WasNamed path.now self.new.holds.by hold) }
        ensures refused { IfErr result (λ why. WasNotHeld path.now self.new.holds.by why) }
    {
        if let Some(hold) = self.try_hold(path) {
            return Ok(hold);
        }
        self.hold_locked(&mut tree.edit(rt), path)
    }

    /// Releases a hold of the same tree, in one word step. The next hold is made with the memory that this
    /// one had.
    ///
    /// Condition: the hold is of this tree's table.
    pub fn release(&mut self, hold: Hold)
        requires table { hold.table ≡ N.table }
        ensures looker { self.new.looker ≡ self.old.looker }
        ensures by { self.new.holds.by ≡ self.old.holds.by }
    {
        self.holds.release(hold);
    }

    /// Ends the holder, frees its memory, and returns its own hold, which is of the root.
    pub fn end(self) -> Hold
        ensures { result ≡ self.holds.by }
    {
        let PathHolder {
            looker: _,
            holds,
            name: _,
        } = self;
        holds.end()
    }
}
