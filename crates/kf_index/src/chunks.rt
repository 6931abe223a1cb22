//! The entries of an index in chunks: when an entry is added or removed, usually only places of its chunk
//! move.

ghost use Rattle.std.specs.Prelude.{◌≡◌, ◌≢◌, ◌∷◌, ◌<◌, ◌≤◌, ◌+◌, ◌*◌, ◌^◌, ℕ, [], length, max, drop, slice_index_or, vec_capacity, IfErr, IfNone, IfSome, OnErr, OnOk, OnSome};
ghost use Rattle.std.specs.Option.{option_copied};
ghost use Rattle.kf_index.specs.Chunks.{joined, HaveSome, ReachTo, IsPartFor, HasKey, LacksName, IsPut, WasRefused, IsTakenOut};
ghost use Rattle.kf_index.specs.Pairs.{IsRising, IsFirstAbove};

use crate::chunk::Chunk;
use crate::compare::in_byte_order;
use crate::listed::Listed;
use crate::name::Name;
use crate::named::{first_above, insert_into, key_in, remove_from};
use kf_core::{Key, Refusal};
use std::alloc::{AllocError, Global};
use std::cmp::Ordering;
use std::marker::Model;

/// Entries in chunks. In contracts it is the list of all entries.
#[derive(Drop)]
pub(crate) struct Chunks {
    /// How many entries there are.
    len: usize,
    /// The entries with the lowest names. In most directories these are all entries.
    first: Chunk,
    /// The other entries, in chunks of which none is empty.
    later: Vec<Chunk>,
}

impl Model for Chunks {
    ghost use Rattle.std.specs.Prelude.{◌≡◌, ◌≤◌, ◌^◌, ◌∷◌, ℕ, List, [], length};
    ghost use Rattle.kf_core.specs.declared.key.Key.{Key};
    ghost use Rattle.kf_index.specs.Chunks.{joined, HaveSome};

    ghost Value = { List (List ℕ × Key) };

    ghost view = { λ all. joined (all.first ∷ all.later.items) };

    ghost invariant = { λ all. (all.len ≡ length (joined (all.first ∷ all.later.items)))
        × ((all.len ≤ 2 ^ 32)
        × (HaveSome all.later.items
        × (all.first ≡ [] → all.later.items ≡ []))) };
}

/// A chunk with this many entries is full, and is split in two if there is memory for that. The memory of a
/// chunk grows to 4, 12, 28 .. 508 entries, so a full chunk has no memory left over.
const FULL: usize = 508;

/// How many of the chunks begin at or below the name.
#[inline(always)]
fn chunks_to(chunks: &[Chunk], name: &[u8]) -> usize
    requires some { HaveSome chunks.now }
    ensures known { ReachTo chunks.now name.now result }
{
    let mut low = 0;
    let mut high = chunks.len();
    while low < high {
        let middle = low + (high - low) / 2;
        match in_byte_order(chunks[middle].all().at(0).0.bytes(), name) {
            Ordering::Greater => high = middle,
            _ => low = middle + 1,
        }
    }
    low
}

/// How many entries there is memory for in these chunks.
fn room_of(chunks: &[Chunk]) -> usize
    requires few { length (joined chunks.now) ≤ 2 ^ 32 }
    ensures enough { length (joined chunks.now) ≤ result }
{
    let mut room: usize = 0;
    for chunk in chunks {
        room = room.saturating_add(chunk.room());
    }
    room
}

/// Makes sure that there is room for one more chunk. A list that grows gets at least twice the room that it
/// had.
fn room_for_one(later: &mut Vec<Chunk>) -> Result<(), AllocError>
    ensures same { later.new.items ≡ later.old.items }
    ensures room { OnOk result (length later.new.items < vec_capacity later.new) }
    ensures stays { length later.old.items < vec_capacity later.old → later.new ≡ later.old }
    ensures fits { vec_capacity later.new ≤ max (vec_capacity later.old) (2 * length later.old.items + 4) }
    ensures doubles { vec_capacity later.old < vec_capacity later.new
        → 2 * vec_capacity later.old ≤ vec_capacity later.new }
{
    if later.len() < later.capacity() {
        return Ok(());
    }
    later.reserve_exact(later.len() + 4)
}

/// Splits the first chunk in two, if it is full and there is memory for that.
fn split_first(first: &mut Chunk, later: &mut Vec<Chunk>)
    requires some { HaveSome later.old.items }
    ensures same { joined (first.new ∷ later.new.items) ≡ joined (first.old ∷ later.old.items) }
    ensures some { HaveSome later.new.items }
    ensures first { first.new ≡ [] → first.old ≡ [] }
    ensures not_full { length first.old < FULL → (first.new ≡ first.old) × (later.new ≡ later.old) }
    ensures fits { vec_capacity later.new ≤ max (vec_capacity later.old) (2 * length later.old.items + 4) }
{
    if first.all().len() < FULL || room_for_one(later).is_err() {
        return;
    }
    if let Ok(upper) = first.split() {
        match later.insert(0, upper) {
            Ok(()) => {}
            Err(_) => unreachable!(),
        }
    }
}

/// The same for one of the later chunks.
fn split_later(later: &mut Vec<Chunk>, chunk: usize)
    requires within { chunk < length later.old.items }
    requires some { HaveSome later.old.items }
    ensures same { joined later.new.items ≡ joined later.old.items }
    ensures some { HaveSome later.new.items }
    ensures not_full { length (slice_index_or later.old.items chunk []) < FULL → later.new ≡ later.old }
    ensures fits { vec_capacity later.new ≤ max (vec_capacity later.old) (2 * length later.old.items + 4) }
{
    if later[chunk].all().len() < FULL || room_for_one(later).is_err() {
        return;
    }
    if let Ok(upper) = later[chunk].split() {
        match later.insert(chunk + 1, upper) {
            Ok(()) => {}
            Err(_) => unreachable!(),
        }
    }
}

/// Puts an entry into the first chunk.
fn put_first(first: &mut Chunk, later: &mut Vec<Chunk>, name: Name, key: Key) -> Result<(), Refusal>
    requires rising { IsRising (joined (first.old ∷ later.old.items)) }
    requires some { HaveSome later.old.items }
    requires here { ReachTo later.old.items name 0 }
    requires few { length (joined (first.old ∷ later.old.items)) < 2 ^ 32 }
    ensures put { OnOk result (IsPut (joined (first.old ∷ later.old.items)) name key
        (joined (first.new ∷ later.new.items))) }
    ensures some { HaveSome later.new.items }
    ensures first { OnOk result (first.new ≢ []) }
    ensures refused { IfErr result (WasRefused (joined (first.old ∷ later.old.items)) name) }
    ensures unchanged { OnErr result ((first.new ≡ first.old) × (later.new.items ≡ later.old.items)) }
{
    insert_into(first, name, key)?;
    split_first(first, later);
    Ok(())
}

/// Puts an entry into one of the later chunks.
fn put_later(later: &mut Vec<Chunk>, chunk: usize, name: Name, key: Key) -> Result<(), Refusal>
    requires rising { IsRising (joined later.old.items) }
    requires some { HaveSome later.old.items }
    requires here { ReachTo later.old.items name (chunk + 1) }
    requires few { length (joined later.old.items) < 2 ^ 32 }
    ensures put { OnOk result (IsPut (joined later.old.items) name key (joined later.new.items)) }
    ensures some { HaveSome later.new.items }
    ensures refused { IfErr result (WasRefused (joined later.old.items) name) }
    ensures unchanged { OnErr result (later.new.items ≡ later.old.items) }
{
    insert_into(&mut later[chunk], name, key)?;
    split_later(later, chunk);
    Ok(())
}

/// Puts an entry into the chunk that its name belongs to.
fn put(first: &mut Chunk, later: &mut Vec<Chunk>, name: Name, key: Key) -> Result<(), Refusal>
    requires rising { IsRising (joined (first.old ∷ later.old.items)) }
    requires some { HaveSome later.old.items }
    requires first { first.old ≡ [] → later.old.items ≡ [] }
    requires few { length (joined (first.old ∷ later.old.items)) < 2 ^ 32 }
    ensures put { OnOk result (IsPut (joined (first.old ∷ later.old.items)) name key
        (joined (first.new ∷ later.new.items))) }
    ensures some { HaveSome later.new.items }
    ensures first { first.new ≡ [] → later.new.items ≡ [] }
    ensures refused { IfErr result (WasRefused (joined (first.old ∷ later.old.items)) name) }
    ensures unchanged { OnErr result ((first.new ≡ first.old) × (later.new.items ≡ later.old.items)) }
{
    let count = chunks_to(later, name.bytes());
    if count == 0 {
        return put_first(first, later, name, key);
    }
    put_later(later, count - 1, name, key)
}

/// Frees the memory of chunks that are gone, if there is room for at least four times the chunks that are
/// left, and four more. The memory stays if no smaller memory can be allocated. If no chunk is left, all
/// memory is freed.
fn thin(later: &mut Vec<Chunk>)
    ensures same { later.new.items ≡ later.old.items }
    ensures fits { vec_capacity later.new ≤ vec_capacity later.old }
    ensures freed { length later.old.items ≡ 0 → vec_capacity later.new ≡ 0 }
    ensures stays { length later.old.items ≢ 0 → vec_capacity later.old ≤ 4 * length later.old.items
        → later.new ≡ later.old }
{
    if later.is_empty() || later.capacity() / 4 > later.len() {
        later.shrink_to_fit();
    }
}

/// Takes an entry out of the first chunk. If that was its last entry, the next chunk becomes the first.
fn take_first(first: &mut Chunk, later: &mut Vec<Chunk>, name: &[u8]) -> Option<Key>
    requires rising { IsRising (joined (first.old ∷ later.old.items)) }
    requires some { HaveSome later.old.items }
    requires here { ReachTo later.old.items name.now 0 }
    ensures taken { IfSome result (λ key. IsTakenOut (joined (first.old ∷ later.old.items)) name.now key
        (joined (first.new ∷ later.new.items))) }
    ensures some { HaveSome later.new.items }
    ensures first { OnSome result (first.new ≡ [] → later.new.items ≡ []) }
    ensures absent { IfNone result (LacksName (joined (first.old ∷ later.old.items)) name.now) }
    ensures unchanged { IfNone result ((first.new ≡ first.old) × (later.new.items ≡ later.old.items)) }
{
    let key = remove_from(first, name)?;
    if first.all().is_empty() && !later.is_empty() {
        *first = later.remove(0);
        thin(later);
    }
    Some(key)
}

/// Takes an entry out of one of the later chunks. If that was its last entry, the chunk is removed too.
fn take_later(later: &mut Vec<Chunk>, chunk: usize, name: &[u8]) -> Option<Key>
    requires rising { IsRising (joined later.old.items) }
    requires some { HaveSome later.old.items }
    requires here { ReachTo later.old.items name.now (chunk + 1) }
    ensures taken { IfSome result (λ key. IsTakenOut (joined later.old.items) name.now key
        (joined later.new.items)) }
    ensures some { HaveSome later.new.items }
    ensures absent { IfNone result (LacksName (joined later.old.items) name.now) }
    ensures unchanged { IfNone result (later.new.items ≡ later.old.items) }
{
    let key = remove_from(&mut later[chunk], name)?;
    if later[chunk].all().is_empty() {
        later.remove(chunk);
        thin(later);
    }
    Some(key)
}

/// Takes an entry out of the chunk that its name belongs to.
fn take(first: &mut Chunk, later: &mut Vec<Chunk>, name: &[u8]) -> Option<Key>
    requires rising { IsRising (joined (first.old ∷ later.old.items)) }
    requires some { HaveSome later.old.items }
    requires first { first.old ≡ [] → later.old.items ≡ [] }
    ensures taken { IfSome result (λ key. IsTakenOut (joined (first.old ∷ later.old.items)) name.now key
        (joined (first.new ∷ later.new.items))) }
    ensures some { HaveSome later.new.items }
    ensures first { first.new ≡ [] → later.new.items ≡ [] }
    ensures absent { IfNone result (LacksName (joined (first.old ∷ later.old.items)) name.now) }
    ensures unchanged { IfNone result ((first.new ≡ first.old) × (later.new.items ≡ later.old.items)) }
{
    let count = chunks_to(later, name);
    if count == 0 {
        return take_first(first, later, name);
    }
    take_later(later, count - 1, name)
}

impl Chunks {
    /// Chunks without entries. This allocates nothing yet.
    pub(crate) fn new(alloc: Global) -> Chunks
        ensures empty { result ≡ [] }
    {
        Chunks {
            len: 0,
            first: Chunk::new(alloc),
            later: Vec::new(alloc),
        }
    }

    /// How many entries there are.
    #[inline(always)]
    pub(crate) fn len(&self) -> usize
        ensures known { result ≡ length self.now }
    {
        self.len
    }

    /// How many entries there is memory for.
    pub(crate) fn room(&self) -> usize
        ensures enough { length self.now ≤ result }
        ensures none { length self.now ≡ 0 → result ≡ 0 }
    {
        if self.later.is_empty() {
            return self.first.room();
        }
        self.first.room().saturating_add(room_of(&self.later))
    }

    /// The chunk that the name belongs to, and the chunks after it.
    #[inline(always)]
    fn chunk_for(&self, name: &[u8]) -> (&Chunk, &[Chunk])
        requires rising { IsRising self.now }
        ensures part { IsPartFor self.now name.now result.0.now (joined result.1.now) }
        ensures some { HaveSome result.1.now }
    {
        let count = chunks_to(&self.later, name);
        if count == 0 {
            return (&self.first, &self.later);
        }
        (&self.later[count - 1], &self.later[count..])
    }

    /// The key under this name.
    #[inline(always)]
    pub(crate) fn get(&self, name: &[u8]) -> Option<Key>
        requires rising { IsRising self.now }
        ensures found { IfSome result (λ key. HasKey self.now name.now key) }
        ensures absent { IfNone result (LacksName self.now name.now) }
    {
        key_in(self.chunk_for(name).0, name)
    }

    /// Adds an entry. If that makes its chunk full, the chunk is split, if there is memory for the split.
    /// After a refusal all is as before.
    pub(crate) fn insert(&mut self, name: Name, key: Key) -> Result<(), Refusal>
        requires rising { IsRising self.old }
        requires few { length self.old < 2 ^ 32 }
        ensures put { OnOk result (IsPut self.old name key self.new) }
        ensures refused { IfErr result (WasRefused self.old name) }
        ensures unchanged { OnErr result (self.new ≡ self.old) }
    {
        put(&mut self.first, &mut self.later, name, key)?;
        self.len += 1;
        Ok(())
    }

    /// Takes the entry of this name out, and returns its key.
    pub(crate) fn remove(&mut self, name: &[u8]) -> Option<Key>
        requires rising { IsRising self.old }
        ensures taken { IfSome result (λ key. IsTakenOut self.old name.now key self.new) }
        ensures absent { IfNone result (LacksName self.old name.now) }
        ensures unchanged { IfNone result (self.new ≡ self.old) }
    {
        let key = take(&mut self.first, &mut self.later, name)?;
        self.len -= 1;
        Some(key)
    }

    /// The entries with names above the bound, or all if there is no bound.
    pub(crate) fn above(&self, bound: Option<&[u8]>) -> Listed<'_>
        requires rising { IsRising self.now }
        ensures first { (at : ℕ) × (IsFirstAbove self.now (option_copied bound.entry) at
            × (result ≡ drop at self.now)) }
    {
        let Some(name) = bound else {
            return Listed::new(self.first.all(), &self.later);
        };
        let (chunk, later) = self.chunk_for(name);
        let at = first_above(chunk.all(), name);
        Listed::new(chunk.all().from(at), later)
    }
}
