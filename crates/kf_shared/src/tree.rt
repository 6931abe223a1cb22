//! The tree that threads share: how it is made, named and locked.
ghost use Rattle.std.specs.Prelude.{◌≡◌, ◌+◌, ◌≤◌, IfErr, IfOk, replicate};
ghost use Rattle.kf_core.specs.declared.refusal.Refusal.TheVariants as refusal_of;
ghost use Rattle.kf_core.specs.Limits.{most_slots};
ghost use Rattle.kf_tree.specs.TreeLogs.{IsNew};
ghost use Rattle.kf_words.specs.Steps.{opened};
ghost use Rattle.kf_shared.specs.Locked.{IsWhole, history};
ghost use Rattle.kf_shared.specs.LookUps.{IsLedInRun};
ghost use Rattle.kf_shared.specs.Sections.{IsTaken};

use crate::editor::Editor;
use crate::locked::Locked;
use crate::naming::Naming;
use crate::noting::note_opening;
use crate::reader::Reader;
use kf_core::{Key, Limits, Refusal};
use kf_live::LiveTree;
use kf_tree::State;
use kf_words::{Master, Words};
use std::alloc::{AllocError, Global};
use std::marker::{Brand, Model, PhantomData};
use std::sync::{RwLock, Wait};

/// A tree with its words, which has no name yet. [`NewTree::named`] turns it into the tree that threads
/// share.
pub struct NewTree {
    pub(crate) alloc: Global,
    pub(crate) state: LiveTree,
    pub(crate) master: Master,
    pub(crate) claims: Vec<u32>,
    pub(crate) name: PhantomData<Brand>,
}

/// Drops the parts in one place, for the same reason as the `Drop` of [`Locked`].
impl Drop for NewTree {
    fn drop(self) {
        let NewTree {
            alloc: _,
            state: _,
            master: _,
            claims: _,
            name: _,
        } = self;
    }
}

impl Model for NewTree {
    ghost use Rattle.kf_words.specs.Notes.{history_of};
    ghost use Rattle.kf_shared.specs.Locked.{Locked, IsTied};
    ghost use Rattle.kf_shared.specs.Links.{AreOfRun};
    ghost use Rattle.kf_shared.specs.Noted.{IsNoted};

    ghost Value = { Locked };

    ghost view = { λ s. record {
      state = s.state.log;
      links = s.state.links;
      master = s.master;
      claims = s.claims.items;
    } };

    ghost invariant = { λ s. IsTied s.master.table s.state.log s.master s.claims.items
        × (IsNoted s.state.log s.claims.items (history_of s.master.seen)
        × AreOfRun s.state.log.root s.state.links (history_of s.master.seen)) };
}

/// Claims for this many slots, of which none is claimed. The claim of an unclaimed slot is 0, since no node
/// has generation 0.
fn no_claims(alloc: Global, slots: u32) -> Result<Vec<u32>, AllocError>
    ensures { IfOk result (λ claims. claims.items ≡ replicate slots 0) }
{
    vec![in alloc; 0; slots as usize]
}

impl NewTree {
    ghost use Rattle.std.specs.Borrow.{sem};
    ghost use Rattle.kf_shared.specs.Lending.{LendsNamed};

    /// The tree with its stored commands.
    pub fn state(&self) -> &State
        ensures same { result.now ≡ self.now.state }
    {
        self.state.state()
    }

    /// Lends the tree in place, under the name of its table, to one owner or to a lock that the caller
    /// provides. Nothing is moved.
    ///
    /// Condition: the name is that of this tree's table of words.
    #[inline(always)]
    pub fn lent<N: Naming>(&mut self) -> &mut Locked<N>
        requires table { self.old.master.table ≡ N.table }
        ensures* writes_back { sem 𝓛 (LendsNamed N.row N.Naming self.entry result) }
        ensures value { result.now ≡ self.old }
    {
        let at = self as *mut NewTree as *mut Locked<N>;
        unsafe { &mut *at }
    }

    /// Puts the tree behind its lock, under the name of its table. This allocates nothing.
    ///
    /// Condition: the name is that of this tree's table of words.
    pub fn named<N: Naming>(self) -> SharedTree<N>
        requires { self.master.table ≡ N.table }
    {
        let NewTree {
            alloc,
            state,
            master,
            claims,
            name: _,
        } = self;
        SharedTree {
            alloc,
            lock: RwLock::new(Locked {
                alloc,
                state,
                master,
                claims,
                name: PhantomData,
            }),
        }
    }
}

/// The tree behind its one lock. Threads share it by reference.
#[derive(Drop)]
pub struct SharedTree<N: Naming> {
    pub(crate) alloc: Global,
    lock: RwLock<Locked<N>>,
}

impl SharedTree<Brand> {
    /// Makes a tree of only the root, a live directory with slot 0 and generation 1 (`kernfs_create_root`).
    ///
    /// Refusal: NoMemory.
    pub fn new(alloc: Global, limits: Limits) -> Result<NewTree, Refusal>
        ensures tree { IfOk result
            (λ tree. IsNew limits.slots (record { slot = 0; generation = 1 }) tree.state) }
        ensures words { IfOk result (λ tree. tree.master.view ≡ opened limits.holds limits.slots 0) }
        ensures claims { IfOk result (λ tree. tree.claims ≡ replicate limits.slots 0) }
        ensures refused { IfErr result (λ refusal. refusal ≡ refusal_of.NoMemory) }
    {
        SharedTree::with_looks(alloc, limits, 0, 0)
    }

    /// Like [`SharedTree::new`], but each slot has already had `start` generations, so the root has the next
    /// one.
    ///
    /// Condition: `start` is at most 4294967294.
    ///
    /// Refusal: NoMemory.
    pub fn new_at(alloc: Global, limits: Limits, start: u32) -> Result<NewTree, Refusal>
        requires { start ≤ 4294967294 }
        ensures tree { IfOk result
            (λ tree. IsNew limits.slots (record { slot = 0; generation = start + 1 }) tree.state) }
        ensures words { IfOk result (λ tree. tree.master.view ≡ opened limits.holds limits.slots start) }
        ensures claims { IfOk result (λ tree. tree.claims ≡ replicate limits.slots 0) }
        ensures refused { IfErr result (λ refusal. refusal ≡ refusal_of.NoMemory) }
    {
        SharedTree::with_looks(alloc, limits, start, 0)
    }

    /// Like [`SharedTree::new_at`], but also makes words for look-ups in the first `looks` slots, at 88 bytes
    /// for each slot. Nodes in higher slots are found only under the lock. It is a function of
    /// `SharedTree::<Brand>` only; `named` gives the tree its name afterwards.
    ///
    /// Conditions: `start` is at most 4294967294; `looks` is at most [`kf_core::MOST_SLOTS`].
    ///
    /// Refusal: NoMemory.
    pub fn with_looks(
        alloc: Global,
        limits: Limits,
        start: u32,
        looks: u32,
    ) -> Result<NewTree, Refusal>
        requires start { start ≤ 4294967294 }
        requires few { looks ≤ most_slots }
        ensures tree { IfOk result
            (λ tree. IsNew limits.slots (record { slot = 0; generation = start + 1 }) tree.state) }
        ensures words { IfOk result (λ tree. tree.master.view ≡ opened limits.holds limits.slots start) }
        ensures claims { IfOk result (λ tree. tree.claims ≡ replicate limits.slots 0) }
        ensures refused { IfErr result (λ refusal. refusal ≡ refusal_of.NoMemory) }
    {
        let (_words, mut master) = Words::new_at(alloc, limits, start)?;
        let root = Key {
            slot: 0,
            generation: start + 1,
        };
        let state = LiveTree::new(alloc, limits, root, looks)?;
        let claims = no_claims(alloc, limits.slots())?;
        note_opening(&mut master, &state);
        Ok(NewTree {
            alloc,
            state,
            master,
            claims,
            name: PhantomData,
        })
    }
}

impl<N: Naming> SharedTree<N> {
    /// Locks the tree for changes, once no other thread has it locked for reading or for changes. Whenever
    /// the lock is taken, the tree is lawful and the replay of its commands, and the words name the same
    /// linked, activated and doomed keys. The last note of the history says that the lock was taken, so the
    /// notes that follow say what is done while it is held.
    ///
    /// The lock is not reentrant. A thread that has an [`Editor`] deadlocks if it calls `edit`, `read`,
    /// `finish`, `remove`, `remove_self`, `hide` or `show` of the same tree. It may also deadlock if it waits
    /// under the lock for a drain or a hidden file: nobody can mark a node meanwhile, and a callback that it
    /// waits for may need the lock. Functions that take no runtime may be called under the lock: the editor's
    /// commands, and those of a hold, call, receipt or token.
    ///
    /// Context: sleeps; takes the tree's lock, which the caller must not hold.
    pub fn edit<R: Wait>(&self, rt: &R) -> Editor<'_, N>
        ensures whole { IsWhole N.table result }
        ensures led { IsLedInRun result }
        ensures taken { IsTaken (history result) }
    {
        let mut editor = Editor {
            tree: self,
            guard: self.lock.write(rt),
        };
        editor.guard.begin_section();
        let _ = editor.state();
        editor
    }

    /// Locks the tree for reading, once no other thread has it locked for changes. Any number of threads may
    /// have a [`Reader`] at once; none of them can change anything. What `edit` says of the tree when the
    /// lock is taken is true here too. What must not be called while a thread has an [`Editor`] must not be
    /// called while it has a `Reader` either. That includes a second `read`, since a thread that waits to
    /// edit may be let in first.
    ///
    /// Context: sleeps; takes the tree's lock, which the caller must not hold.
    pub fn read<R: Wait>(&self, rt: &R) -> Reader<'_, N>
        ensures { IsWhole N.table result }
    {
        let reader = Reader {
            guard: self.lock.read(rt),
        };
        let _ = reader.state();
        reader
    }
}
