//! A hot value: threads call it through a gate, each through a lane. Each lane has an owner (an `Arc`) of the
//! value.
ghost use Rattle.std.specs.Prelude.{◌≡◌, ◌≤◌, ◌<◌, IfErr, IfOk, IsTrue, length, vec_len, true};
ghost use Rattle.std.specs.Arc.{arc_value};
ghost use Rattle.std.specs.Fn.{FnOnceReturnsAt, FnOnceTakesAt};
ghost use Rattle.kf_core.specs.declared.refusal.Refusal.TheVariants as refusal_of;
ghost use Rattle.kf_shared.specs.Receipts.{HoldsRefusal};

use crate::hot_caller::HotCaller;
use crate::published::{Published, copy_of};
use arrayvec::ArrayVec;
use crossbeam_utils::CachePadded;
use kf_core::{Key, Refusal};
use kf_gates::Pass;
use std::alloc::{AllocError, Global};
use std::sync::{Arc, Mutex, RwLock, Wait};

/// A hot value, with the path that it was published under.
#[derive(Drop)]
pub(crate) struct HotValue<T: Published> {
    pub(crate) path: ArrayVec<u8, 256>,
    pub(crate) value: T,
    ghost suits_its_path: { T.suits path.items value ≡ true },
}

impl<T: Published> HotValue<T> {
    /// A hot value that is published under this path.
    ///
    /// Conditions: the value suits the path, and the path has at most 256 bytes.
    pub(crate) fn new(path: &[u8], value: T) -> HotValue<T>
        requires suits { T.suits path.now value ≡ true }
        requires fits { length path.now ≤ 256 }
        ensures path { result.path.items ≡ path.now }
        ensures value { result.value ≡ value }
    {
        HotValue {
            path: copy_of(path),
            value,
        }
    }

    /// Whether it was published under this path.
    pub(crate) fn is_of(&self, path: &[u8]) -> bool
        ensures suits { IsTrue result → T.suits path.now self.now.value ≡ true }
    {
        self.path.as_slice() == path
    }

    /// The value.
    pub(crate) fn into_value(self) -> T
        ensures same { result ≡ self.value }
        ensures suits { T.suits self.path.items result ≡ true }
    {
        let HotValue { path: _, value } = self;
        value
    }
}

/// The first owner of a hot value that is published under this path.
///
/// Conditions: the value suits the path, and the path has at most 256 bytes.
///
/// Refusal: NoMemory. Then the value is returned.
pub(crate) fn new_owner<T: Published>(
    alloc: Global,
    path: &[u8],
    value: T,
) -> Result<Arc<HotValue<T>>, (T, Refusal)>
    requires suits { T.suits path.now value ≡ true }
    requires fits { length path.now ≤ 256 }
    ensures value { IfOk result (λ own. (arc_value own).value ≡ value) }
    ensures path { IfOk result (λ own. (arc_value own).path.items ≡ path.now) }
    ensures back { IfErr result (λ r. r.0 ≡ value) }
    ensures refused { IfErr result (λ r. r.1 ≡ refusal_of.NoMemory) }
{
    match Arc::new(alloc, HotValue::new(path, value)) {
        Ok(own) => Ok(own),
        Err(failed) => Err((failed.value.into_value(), Refusal::NoMemory)),
    }
}

/// Takes the value out of its last owner. It waits until there is no other owner, which is at once if every
/// lane is empty.
pub(crate) fn only<T: Published, R: Wait>(rt: &R, own: Arc<HotValue<T>>) -> HotValue<T>
    ensures { result ≡ arc_value own }
{
    let mut owner = own;
    for _ in rt.forever() {
        match Arc::try_unwrap(owner) {
            Ok(value) => return value,
            Err(back) => owner = back,
        }
    }
    unreachable!()
}

/// The place of a lane, with nothing else on its cache lines.
type Lane<T> = CachePadded<RwLock<Option<Arc<HotValue<T>>>>>;

/// A place for each lane. While somebody is inside through a lane, the lane's place keeps its owner of the
/// value.
#[derive(Drop)]
pub(crate) struct Lanes<T: Published> {
    places: Vec<Lane<T>>,
    ghost some: { 0 < vec_len places },
}

/// The place of a lane, with another owner of this value.
fn filled<T: Published>(own: &Arc<HotValue<T>>) -> Result<Lane<T>, AllocError> {
    Ok(CachePadded::new(RwLock::new(Some(Arc::try_clone(own)?))))
}

impl<T: Published> Lanes<T> {
    /// This many places, each with an owner of this value.
    ///
    /// Condition: there is at least one lane.
    pub(crate) fn new(
        alloc: Global,
        own: &Arc<HotValue<T>>,
        lanes: u64,
    ) -> Result<Lanes<T>, AllocError>
        requires some { 0 < lanes }
    {
        let mut places = Vec::new(alloc);
        for _ in 1..lanes {
            places.push(filled(own)?)?;
        }
        places.push(filled(own)?)?;
        Ok(Lanes { places })
    }

    /// Lends the value in a lane's place to `f`. If the place does not have a value that was published under
    /// this path, `f` is returned.
    ///
    /// Condition: `f` may be called with every value that suits the path.
    pub(crate) fn lend<A, R: Wait, F: FnOnce(&T) -> A>(
        &self,
        rt: &R,
        lane: u64,
        path: &[u8],
        f: F,
    ) -> Result<A, F>
        requires callable { (value : T) → T.suits path.now value ≡ true → FnOnceTakesAt F.FnOnce f value }
        ensures ran { IfOk result (λ answer.
            (value : T) × (T.suits path.now value ≡ true) × FnOnceReturnsAt F.FnOnce f value answer) }
        ensures back { IfErr result (λ back. back ≡ f) }
    {
        match &*self.places[lane as usize % self.places.len()].read(rt) {
            Some(owner) => {
                let hot: &HotValue<T> = owner;
                if hot.is_of(path) {
                    Ok(f(&hot.value))
                } else {
                    Err(f)
                }
            }
            None => Err(f),
        }
    }

    /// How many lanes there are.
    pub(crate) fn count(&self) -> u64
        ensures some { 0 < result }
    {
        self.places.len() as u64
    }

    /// Replaces the owner in each of these lanes with the owner in the same lane of `other`, one lane after
    /// another. So each lane has an owner at all times. In each lane it waits until nobody is inside through
    /// the lane.
    pub(crate) fn fill<R: Wait>(&self, rt: &R, other: Lanes<T>) {
        let Lanes { places } = other;
        let mut rest = places.into_iter();
        for place in self.places.iter() {
            if let Some(next) = rest.next() {
                *place.write(rt) = next.into_inner().into_inner();
            }
        }
    }

    /// Empties the place of each lane. In each lane it waits until nobody is inside through the lane.
    pub(crate) fn clear<R: Wait>(&self, rt: &R) {
        for place in self.places.iter() {
            *place.write(rt) = None;
        }
    }
}

/// What the place of a hot value's node has.
#[derive(Drop)]
pub(crate) struct HotEntry<T: Published> {
    pub(crate) key: Key,
    pub(crate) lanes: Arc<Lanes<T>>,
    number: u64,
    first: Mutex<Pass>,
}

impl<T: Published> HotEntry<T> {
    /// The entry for the node of this key. The value's gate was opened under this number, and this was its
    /// first pass.
    pub(crate) fn new(key: Key, lanes: Arc<Lanes<T>>, number: u64, first: Pass) -> HotEntry<T>
        ensures key { result.key ≡ key }
    {
        HotEntry {
            key,
            lanes,
            number,
            first: Mutex::new(first),
        }
    }

    /// A caller with which a thread calls the value through this lane.
    ///
    /// Condition: the path has at most 256 bytes.
    ///
    /// Refusals: TooManyHolds (the gate has had 2^32 - 1 passes), NoMemory.
    pub(crate) fn caller<R: Wait>(
        &self,
        rt: &R,
        path: &[u8],
        lane: u64,
    ) -> Result<HotCaller<T>, Refusal>
        requires fits { length path.now ≤ 256 }
        ensures path { IfOk result (λ caller. caller.path ≡ path.now) }
        ensures refused { IfErr result HoldsRefusal }
    {
        let lanes = Arc::try_clone(&self.lanes)?;
        let pass = self.first.lock(rt).another(lane)?;
        Ok(HotCaller::new(lanes, lane, pass, copy_of(path), self.number))
    }
}
