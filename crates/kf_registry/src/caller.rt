//! Calls of values by their paths.
ghost use Rattle.std.specs.Prelude.{◌≡◌, ◌⊎◌, IfErr, IfOk, IfSome, true};
ghost use Rattle.std.specs.Fn.{FnOnceReturnsAt, FnOnceTakesAt};
ghost use Rattle.kf_core.specs.declared.caller.Phase.TheVariants as phase_of;
ghost use Rattle.kf_words.specs.Notes.{history_of};
ghost use Rattle.kf_shared.specs.Finding.{WasNamed, WasNotHeld};
ghost use Rattle.kf_shared.specs.Locked.{IsWhole, history};
ghost use Rattle.kf_shared.specs.Sections.{IsTaken};
ghost use Rattle.kf_registry.specs.Refusals.{WasNotLent};

use crate::published::{Published, Stored};
use crate::registry::Registry;
use kf_core::{Phase, Refusal};
use kf_shared::{Editor, Naming, PathHolder, SharedTree};
use kf_words::Call;
use std::sync::Wait;

impl<N: Naming, T: Published> Registry<N, T> {
    /// Lends the value of a running call's node to `f`. If the node's place does not have a value that was
    /// published under this path, `f` is returned.
    ///
    /// Conditions: the call is Running, and `f` may be called with every value that suits the path.
    ///
    /// Context: does not sleep, except in `f` and, if the value is hot, behind a swap that is under way in
    /// lane 0.
    pub fn lend<A, R: Wait, F: FnOnce(&T) -> A>(
        &self,
        rt: &R,
        call: &Call,
        path: &[u8],
        f: F,
    ) -> Result<A, F>
        requires running { call.now.phase ≡ phase_of.Running }
        requires callable { (value : T) → T.suits path.now value ≡ true → FnOnceTakesAt F.FnOnce f value }
        ensures ran { IfOk result (λ answer.
            (value : T) × (T.suits path.now value ≡ true) × FnOnceReturnsAt F.FnOnce f value answer) }
        ensures back { IfErr result (λ back. back ≡ f) }
    {
        let key = call.key();
        match &*self.place(key).read(rt) {
            Some(Stored::Plain(entry)) if entry.is_of(key, path) => Ok(f(&entry.value)),
            Some(Stored::Hot(hot)) if hot.key == key => hot.lanes.lend(rt, 0, path, f),
            _ => Err(f),
        }
    }
}

/// A thread's caller, with which it calls, publishes and takes values. Each thread has its own. In contracts,
/// it has seen the whole history whenever it takes the tree's lock. So each refusal says what was in the tree
/// of the one run when the lock was taken.
pub struct ValueCaller<N: Naming> {
    pub(crate) holder: PathHolder<N>,
}

impl<N: Naming> ValueCaller<N> {
    /// Takes the tree's lock. The caller has now seen the whole history.
    pub(crate) fn lock<'a, R: Wait>(&mut self, rt: &R, tree: &'a SharedTree<N>) -> Editor<'a, N>
        ensures whole { IsWhole N.table result }
        ensures taken { IsTaken (history result) }
        ensures known { history_of self.new.holder.holds.by.seen ≡ history result }
    {
        let mut editor = tree.edit(rt);
        self.holder.learn(&mut editor);
        let _ = editor.state();
        editor
    }

    /// A running call of the live node that a path names, without taking the tree's lock.
    fn try_enter(&mut self, path: &[u8]) -> Option<Call>
        ensures running { IfSome result (λ call. call.phase ≡ phase_of.Running) }
        ensures table { IfSome result (λ call. call.table ≡ N.table) }
    {
        match self.holder.try_hold(path)?.enter() {
            Ok(call) => Some(call),
            Err(hold) => {
                self.holder.release(hold);
                None
            }
        }
    }

    /// A running call of the live node that a path names, found under the tree's lock.
    ///
    /// Refusals, in order: those of [`kf_tree::State::lookup`]; TooManyHolds, NoMemory; NoDevice if somebody
    /// hides the node.
    fn enter<R: Wait>(&mut self, rt: &R, tree: &SharedTree<N>, path: &[u8]) -> Result<Call, Refusal>
        ensures running { IfOk result (λ call. call.phase ≡ phase_of.Running) }
        ensures table { IfOk result (λ call. call.table ≡ N.table) }
        ensures named { IfOk result (λ call. WasNamed path.now self.new.holder.holds.by call) }
        ensures refused { IfErr result (λ why.
            WasNotHeld path.now self.new.holder.holds.by why
            ⊎ WasNotLent path.now self.new.holder.holds.by why) }
    {
        let mut editor = self.lock(rt, tree);
        let key = editor.state().lookup(path)?;
        let hold = editor.hold(key)?;
        match hold.enter() {
            Ok(call) => Ok(call),
            Err(hold) => {
                self.holder.release(hold);
                Err(Refusal::NoDevice)
            }
        }
    }

    /// Like `call`, but `f` is returned if a look-up without the lock finds no live node, or if the value is
    /// not in the node's place.
    fn try_call<T: Published, A, R: Wait, F: FnOnce(&T) -> A>(
        &mut self,
        rt: &R,
        registry: &Registry<N, T>,
        path: &[u8],
        f: F,
    ) -> Result<A, F>
        requires callable { (value : T) → T.suits path.now value ≡ true → FnOnceTakesAt F.FnOnce f value }
        ensures ran { IfOk result (λ answer.
            (value : T) × (T.suits path.now value ≡ true) × FnOnceReturnsAt F.FnOnce f value answer) }
        ensures back { IfErr result (λ back. back ≡ f) }
    {
        let Some(call) = self.try_enter(path) else {
            return Err(f);
        };
        let ran = registry.lend(rt, &call, path, f);
        self.holder.release(call.leave());
        ran
    }

    /// Lends the value under a path to `f`, inside a call of its node: nobody gets the value back before `f`
    /// has returned.
    ///
    /// Condition: `f` may be called with every value that suits the path.
    ///
    /// Refusals, in order: those of [`kf_tree::State::lookup`] (NoEntry: nothing is published there);
    /// TooManyHolds, NoMemory. They are found under the tree's lock, when no publication and no swap is half
    /// done. The contract also allows NoDevice (the node is hidden), and NoEntry for a node that was found
    /// (its place is empty). But no call of this crate leaves a node so.
    ///
    /// Context: takes the tree's lock if a look-up without it finds no value; the caller must not hold it. It
    /// sleeps otherwise only in `f`, which runs without the lock, and, if the value is hot, behind a swap
    /// that is under way in lane 0. So `f` must not call a hot value again that it was lent: a swap that
    /// waits for `f` would keep that call waiting.
    pub fn call<T: Published, A, R: Wait, F: FnOnce(&T) -> A>(
        &mut self,
        rt: &R,
        registry: &Registry<N, T>,
        path: &[u8],
        f: F,
    ) -> Result<A, Refusal>
        requires callable { (value : T) → T.suits path.now value ≡ true → FnOnceTakesAt F.FnOnce f value }
        ensures ran { IfOk result (λ answer.
            (value : T) × (T.suits path.now value ≡ true) × FnOnceReturnsAt F.FnOnce f value answer) }
        ensures refused { IfErr result (λ why.
            WasNotHeld path.now self.new.holder.holds.by why
            ⊎ WasNotLent path.now self.new.holder.holds.by why) }
    {
        let f = match self.try_call(rt, registry, path, f) {
            Ok(answer) => return Ok(answer),
            Err(f) => f,
        };
        let call = self.enter(rt, &registry.tree, path)?;
        let ran = registry.lend(rt, &call, path, f);
        self.holder.release(call.leave());
        match ran {
            Ok(answer) => Ok(answer),
            Err(_) => Err(Refusal::NoEntry),
        }
    }
}

/// Releases its hold of the root.
impl<N: Naming> Drop for ValueCaller<N> {
    fn drop(self) {
        let ValueCaller { holder } = self;
        holder.end().release();
    }
}
