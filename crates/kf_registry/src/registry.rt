//! The registry: its tree, a place for each slot, and publishing.
ghost use Rattle.std.specs.Prelude.{◌≡◌, ◌<◌, ◌≤◌, IfErr, IfOk, length, vec_len, true};
ghost use Rattle.kf_shared.specs.Locked.{Adds};
ghost use Rattle.kf_registry.specs.Receipts.{WasPublished, stands, value_node};
ghost use Rattle.kf_registry.specs.Refusals.{PublishRefused, StandCause, WereListed};
ghost use Rattle.std.specs.Option.{option_copied};

use crate::caller::ValueCaller;
use crate::nodes::{VALUE, create_node};
use crate::published::{Entry, Published, Stored, name_of};
use kf_core::{Key, Limits, Refusal};
use kf_index::Name;
use kf_shared::{Editor, Naming, NewTree, PathHolder, SharedTree};
use std::alloc::Global;
use std::marker::Brand;
use std::sync::{RwLock, Wait};

/// A registry that has no name yet. [`NewRegistry::named`] turns it into the `Registry` that threads share.
#[derive(Drop)]
pub struct NewRegistry<T: Published> {
    alloc: Global,
    tree: NewTree,
    places: Vec<RwLock<Option<Stored<T>>>>,
    ghost some: { 0 < vec_len places },
}

impl<T: Published> NewRegistry<T> {
    /// A registry without values. It has room for `values` values at a time, and `callers` threads, at most
    /// 65,531, may have a caller. A value takes up its room until the [`Taken`](crate::Taken) that returned
    /// it is spent.
    ///
    /// Refusal: NoMemory. (The numbers of slots and holds are always within the limits of a tree.)
    pub fn new(alloc: Global, values: u16, callers: u16) -> Result<NewRegistry<T>, Refusal> {
        let slots = 1 + u32::from(values) + u32::from(callers);
        let holds = u32::from(callers.saturating_add(4));
        let limits = Limits::new(slots, holds).ok_or(Refusal::NoSpace)?;
        let tree = SharedTree::<Brand>::with_looks(alloc, limits, 0, slots)?;
        let mut places = Vec::new(alloc);
        for _ in 1..slots {
            places.push(RwLock::new(None))?;
        }
        places.push(RwLock::new(None))?; // so there is at least one
        Ok(NewRegistry {
            alloc,
            tree,
            places,
        })
    }

    /// Turns this into a `Registry` with the name of its tree's table. It allocates nothing.
    ///
    /// Condition: `N` is the name of this tree's table of words.
    pub fn named<N: Naming>(self) -> Registry<N, T>
        requires table { self.tree.master.table ≡ N.table }
    {
        let NewRegistry {
            alloc,
            tree,
            places,
        } = self;
        Registry {
            alloc,
            tree: tree.named::<N>(),
            places,
        }
    }
}

/// A registry: published values, each in the place of its node's slot. While somebody is inside a node, the
/// node's place keeps its value. Threads share a registry by reference.
#[derive(Drop)]
pub struct Registry<N: Naming, T: Published> {
    pub(crate) alloc: Global,
    pub(crate) tree: SharedTree<N>,
    places: Vec<RwLock<Option<Stored<T>>>>,
    ghost some: { 0 < vec_len places },
}

impl<N: Naming, T: Published> Registry<N, T> {
    /// The place of a node. There is one place for each slot, so the remainder is the slot itself.
    pub(crate) fn place(&self, key: Key) -> &RwLock<Option<Stored<T>>> {
        &self.places[key.slot as usize % self.places.len()]
    }

    /// Creates the live node of a value, and then puts the value into the node's place. A caller that finds
    /// the node in between waits for the tree's lock, which `editor` has.
    ///
    /// Conditions: the value suits the path, and the path has at most 256 bytes.
    ///
    /// Refusals: those of [`Editor::create`]. Then nothing is changed, and the value is returned.
    pub(crate) fn stand<R: Wait>(
        &self,
        rt: &R,
        editor: &mut Editor<'_, N>,
        path: &[u8],
        name: &[u8],
        value: T,
    ) -> Result<Key, (T, Refusal)>
        requires suits { T.suits path.now value ≡ true }
        requires fits { length path.now ≤ 256 }
        ensures noted { IfOk result (λ key.
            Adds editor.old editor.new (stands value_node editor.old.state.root key name.now)) }
        ensures back { IfErr result (λ r. r.0 ≡ value) }
        ensures refused { IfErr result (λ r.
            StandCause name.now value_node r.1 editor.old.state.tree editor.old.state.root) }
    {
        match create_node(editor, name, VALUE) {
            Ok(key) => {
                let entry = Entry::new(path, key, value);
                *self.place(key).write(rt) = Some(Stored::Plain(entry));
                Ok(key)
            }
            Err(why) => Err((value, why)),
        }
    }

    /// Publishes a value under a path, so that it can be called at once. The path is a slash and a name that
    /// does not begin with a dot.
    ///
    /// Condition: the value suits the path.
    ///
    /// Refusals, in order: Invalid (the path does not have this form), NameTooLong (the name has more than
    /// 255 bytes), Invalid (the name is not lawful), Exists, NoSpace (the registry already has the greatest
    /// number of values), NoMemory. After a refusal nothing is changed, and the value is returned.
    ///
    /// Context: takes the tree's lock; the caller must not hold it.
    pub fn publish<R: Wait>(
        &self,
        rt: &R,
        by: &mut ValueCaller<N>,
        path: &[u8],
        value: T,
    ) -> Result<(), (T, Refusal)>
        requires suits { T.suits path.now value ≡ true }
        ensures published { IfOk result (λ _. (key : Key)
            × WasPublished value_node path.now key by.new.holder.holds.by) }
        ensures back { IfErr result (λ r. r.0 ≡ value) }
        ensures refused { IfErr result (λ r. PublishRefused path.now by.new.holder.holds.by r.1) }
    {
        let name = match name_of(path) {
            Ok(name) => name,
            Err(why) => return Err((value, why)),
        };
        let mut editor = by.lock(rt, &self.tree);
        match self.stand(rt, &mut editor, path, name, value) {
            Ok(_) => {
                by.holder.learn(&mut editor);
                Ok(())
            }
            Err(refused) => Err(refused),
        }
    }

    /// The published names above a bound, in byte order, each without its slash, at most this many. The list
    /// is that of one moment.
    ///
    /// Refusal: NoMemory.
    ///
    /// Context: takes the tree's lock; the caller must not hold it.
    pub fn list<R: Wait>(
        &self,
        rt: &R,
        by: &mut ValueCaller<N>,
        after: Option<&[u8]>,
        most: usize,
    ) -> Result<Vec<Name>, Refusal>
        ensures listed { IfOk result
            (λ names. WereListed by.new.holder.holds.by (option_copied after.entry) most names.items) }
    {
        let editor = by.lock(rt, &self.tree);
        let state = editor.state();
        state.list(state.root(), after, most)
    }

    /// A new caller, with which a thread calls, publishes and takes values.
    ///
    /// Refusals: TooManyHolds (the registry already has the greatest number of callers), NoMemory.
    ///
    /// Context: takes the tree's lock; the caller must not hold it.
    pub fn caller<R: Wait>(&self, rt: &R) -> Result<ValueCaller<N>, Refusal> {
        let holder = PathHolder::new(self.alloc, &mut self.tree.edit(rt))?;
        Ok(ValueCaller { holder })
    }
}
