//! Entries at places that they keep, and the order of these places. When an entry is added or removed, only
//! places move.

ghost use Rattle.std.specs.Prelude.{◌≡◌, ◌<◌, ◌≤◌, ◌+◌, ◌-◌, ◌*◌, ◌^◌, ◌++◌, ◌∷◌, ℕ, List, [], length, max, take, drop, reverse, insert, remove, slice_index_or, vec_capacity, OnOk, ◌≢◌};
ghost use Rattle.kf_core.specs.declared.key.Key.{Key};
ghost use Rattle.kf_index.specs.Places.{AreInOrder, IsFitting, pairs_at};

use crate::name::Name;
use kf_core::Key;
use std::alloc::AllocError;

/// Adds a free place after all others. There must be room for it.
pub(crate) fn add_place(entries: &mut Vec<Option<(Name, Key)>>, order: &mut Vec<u32>, len: usize)
    requires kept { AreInOrder entries.old.items order.old.items len }
    requires few { length order.old.items < 2 ^ 32 }
    requires room { length entries.old.items < vec_capacity entries.old }
    requires room_order { length order.old.items < vec_capacity order.old }
    ensures kept { AreInOrder entries.new.items order.new.items len }
    ensures same { pairs_at entries.new.items (take len order.new.items)
        ≡ pairs_at entries.old.items (take len order.old.items) }
    ensures more { length order.new.items ≡ length order.old.items + 1 }
    ensures in_place { vec_capacity entries.new ≡ vec_capacity entries.old }
    ensures in_place_order { vec_capacity order.new ≡ vec_capacity order.old }
{
    let place = entries.len() as u32;
    entries.push_reserved(None);
    order.push_reserved(place);
}

/// Makes sure that a place is free. After a refusal no entry has moved.
pub(crate) fn make_room(
    entries: &mut Vec<Option<(Name, Key)>>,
    order: &mut Vec<u32>,
    len: usize,
) -> Result<(), AllocError>
    requires kept { AreInOrder entries.old.items order.old.items len }
    requires few { len < 2 ^ 32 }
    ensures kept { AreInOrder entries.new.items order.new.items len }
    ensures same { pairs_at entries.new.items (take len order.new.items)
        ≡ pairs_at entries.old.items (take len order.old.items) }
    ensures free { OnOk result (len < length order.new.items) }
    ensures fits { vec_capacity entries.new ≤ max (vec_capacity entries.old) (2 * len + 4) }
    ensures fits_order { vec_capacity order.new ≤ max (vec_capacity order.old) (2 * len + 4) }
    ensures doubles { vec_capacity entries.old < vec_capacity entries.new
        → 2 * vec_capacity entries.old ≤ vec_capacity entries.new }
    ensures doubles_order { vec_capacity order.old < vec_capacity order.new
        → 2 * vec_capacity order.old ≤ vec_capacity order.new }
    ensures stays { len < length order.old.items → (entries.new ≡ entries.old) × (order.new ≡ order.old) }
    ensures in_place { length entries.old.items < vec_capacity entries.old
        → vec_capacity entries.new ≡ vec_capacity entries.old }
    ensures in_place_order { length order.old.items < vec_capacity order.old
        → vec_capacity order.new ≡ vec_capacity order.old }
{
    if len < order.len() {
        return Ok(());
    }
    // Both get their room first, so that after a refusal they still have the same length.
    if order.len() == order.capacity() {
        order.reserve_exact(len + 4)?;
    }
    if entries.len() == entries.capacity() {
        entries.reserve_exact(len + 4)?;
    }
    add_place(entries, order, len);
    Ok(())
}

/// Moves the last place of an order to the position `at`, and the places from there on up by one.
pub(crate) fn last_to(order: &mut [u32], at: usize)
    requires within { at < length order.old }
    ensures moved { (front : List ℕ) (last : ℕ) → order.old ≡ front ++ last ∷ []
        → order.new ≡ insert front at last }
{
    order[at..].rotate_right(1);
}

/// Puts an entry into a free place, and that place into the order.
pub(crate) fn put_at(
    entries: &mut [Option<(Name, Key)>],
    order: &mut [u32],
    len: usize,
    at: usize,
    entry: (Name, Key),
)
    requires kept { AreInOrder entries.old order.old len }
    requires free { len < length order.old }
    requires within { at ≤ len }
    ensures kept { AreInOrder entries.new order.new (len + 1) }
    ensures put { pairs_at entries.new (take (len + 1) order.new)
        ≡ insert (pairs_at entries.old (take len order.old)) at entry }
{
    let place = order[len] as usize;
    entries[place] = Some(entry);
    last_to(&mut order[..len + 1], at);
}

/// Moves one of the places to the end of an order, and the places after it down by one.
pub(crate) fn to_last(order: &mut [u32], at: usize)
    requires within { at < length order.old }
    ensures moved { (other : ℕ) →
        order.new ≡ remove order.old at ++ slice_index_or order.old at other ∷ [] }
{
    order[at..].rotate_left(1);
}

/// Takes an entry out, and moves its place to the free ones.
pub(crate) fn take_at(
    entries: &mut [Option<(Name, Key)>],
    order: &mut [u32],
    len: usize,
    at: usize,
) -> (Name, Key)
    requires kept { AreInOrder entries.old order.old len }
    requires within { at < len }
    ensures kept { AreInOrder entries.new order.new (len - 1) }
    ensures value { result ≡ slice_index_or (pairs_at entries.old (take len order.old)) at result }
    ensures taken { pairs_at entries.new (take (len - 1) order.new)
        ≡ remove (pairs_at entries.old (take len order.old)) at }
{
    let place = order[at] as usize;
    to_last(&mut order[..len], at);
    match entries[place].take() {
        Some(entry) => entry,
        None => unreachable!(),
    }
}

/// Frees all memory, if no entry is left.
pub(crate) fn free_when_empty(
    entries: &mut Vec<Option<(Name, Key)>>,
    order: &mut Vec<u32>,
    len: usize,
)
    requires kept { AreInOrder entries.old.items order.old.items len }
    ensures kept { AreInOrder entries.new.items order.new.items len }
    ensures same { pairs_at entries.new.items (take len order.new.items)
        ≡ pairs_at entries.old.items (take len order.old.items) }
    ensures freed { len ≡ 0 → (vec_capacity entries.new ≡ 0) × (vec_capacity order.new ≡ 0) }
    ensures fits { vec_capacity entries.new ≤ vec_capacity entries.old }
    ensures fits_order { vec_capacity order.new ≤ vec_capacity order.old }
{
    if len == 0 {
        entries.clear();
        entries.shrink_to_fit();
        order.clear();
        order.shrink_to_fit();
    }
}

/// Puts an entry after all others. There must be room for it.
pub(crate) fn put_last(
    entries: &mut Vec<Option<(Name, Key)>>,
    order: &mut Vec<u32>,
    len: usize,
    entry: (Name, Key),
)
    requires kept { AreInOrder entries.old.items order.old.items len }
    requires all { length order.old.items ≡ len }
    requires few { len < 2 ^ 32 }
    requires room { len < vec_capacity entries.old }
    requires room_order { len < vec_capacity order.old }
    ensures kept { AreInOrder entries.new.items order.new.items (len + 1) }
    ensures put { pairs_at entries.new.items (take (len + 1) order.new.items)
        ≡ insert (pairs_at entries.old.items (take len order.old.items)) len entry }
    ensures all { length order.new.items ≡ len + 1 }
    ensures in_place { vec_capacity entries.new ≡ vec_capacity entries.old }
    ensures in_place_order { vec_capacity order.new ≡ vec_capacity order.old }
{
    add_place(entries, order, len);
    put_at(entries, order, len, len, entry);
}

/// Reverses the order of all entries.
pub(crate) fn turn(entries: &[Option<(Name, Key)>], order: &mut [u32])
    requires kept { AreInOrder entries.now order.old (length order.old) }
    ensures kept { AreInOrder entries.now order.new (length order.old) }
    ensures turned { pairs_at entries.now order.new ≡ reverse (pairs_at entries.now order.old) }
    ensures as_many { length order.new ≡ length order.old }
{
    order.reverse();
}

/// Takes all entries except the first `stay` out, the last one first, and puts each after those that are in
/// `to` already. The caller must make room for them.
pub(crate) fn move_turned(
    entries: &mut [Option<(Name, Key)>],
    order: &mut [u32],
    len: usize,
    stay: usize,
    to: &mut Vec<Option<(Name, Key)>>,
    to_order: &mut Vec<u32>,
)
    requires kept { AreInOrder entries.old order.old len }
    requires few { len ≤ 2 ^ 32 }
    requires within { stay ≤ len }
    requires empty { to.old.items ≡ [] }
    requires empty_order { to_order.old.items ≡ [] }
    requires room { len - stay ≤ vec_capacity to.old }
    requires room_order { len - stay ≤ vec_capacity to_order.old }
    ensures left { AreInOrder entries.new order.new stay }
    ensures stayed { pairs_at entries.new (take stay order.new)
        ≡ take stay (pairs_at entries.old (take len order.old)) }
    ensures kept { AreInOrder to.new.items to_order.new.items (len - stay) }
    ensures moved { pairs_at to.new.items (take (len - stay) to_order.new.items)
        ≡ reverse (drop stay (pairs_at entries.old (take len order.old))) }
    ensures all { length to_order.new.items ≡ len - stay }
    ensures in_place { vec_capacity to.new ≡ vec_capacity to.old }
    ensures in_place_order { vec_capacity to_order.new ≡ vec_capacity to_order.old }
{
    let mut left = len;
    while left > stay {
        let entry = take_at(entries, order, left, left - 1);
        put_last(to, to_order, len - left, entry);
        left -= 1;
    }
}

/// Moves all entries to memory for `room` of them, and frees their old memory. After a refusal no entry has
/// moved.
pub(crate) fn fit(
    entries: &mut Vec<Option<(Name, Key)>>,
    order: &mut Vec<u32>,
    len: usize,
    room: usize,
) -> Result<(), AllocError>
    requires kept { AreInOrder entries.old.items order.old.items len }
    requires few { len ≤ 2 ^ 32 }
    requires within { len ≤ room }
    ensures kept { AreInOrder entries.new.items order.new.items len }
    ensures same { pairs_at entries.new.items (take len order.new.items)
        ≡ pairs_at entries.old.items (take len order.old.items) }
    ensures fitted { OnOk result (vec_capacity entries.new ≡ room) }
    ensures fitted_order { OnOk result (vec_capacity order.new ≡ room) }
{
    let alloc = *entries.allocator();
    let mut fewer = Vec::with_capacity(alloc, room)?;
    let mut fewer_order = Vec::with_capacity(alloc, room)?;
    move_turned(entries, order, len, 0, &mut fewer, &mut fewer_order);
    turn(&fewer, &mut fewer_order);
    *entries = fewer;
    *order = fewer_order;
    Ok(())
}

/// Frees memory beyond what this many entries may keep. After a refusal no entry has moved.
pub(crate) fn give_back(
    entries: &mut Vec<Option<(Name, Key)>>,
    order: &mut Vec<u32>,
    len: usize,
) -> Result<(), AllocError>
    requires kept { AreInOrder entries.old.items order.old.items len }
    requires few { len ≤ 2 ^ 32 }
    ensures kept { AreInOrder entries.new.items order.new.items len }
    ensures same { pairs_at entries.new.items (take len order.new.items)
        ≡ pairs_at entries.old.items (take len order.old.items) }
    ensures freed { len ≡ 0 → (vec_capacity entries.new ≡ 0) × (vec_capacity order.new ≡ 0) }
    ensures fits { OnOk result (IsFitting len (vec_capacity entries.new)) }
    ensures fits_order { OnOk result (IsFitting len (vec_capacity order.new)) }
    ensures stays { len ≢ 0
        → IsFitting len (vec_capacity entries.old) → IsFitting len (vec_capacity order.old)
        → (entries.new ≡ entries.old) × (order.new ≡ order.old) }
{
    if len == 0 {
        free_when_empty(entries, order, len);
        return Ok(());
    }
    if entries.capacity() / 4 <= len && order.capacity() / 4 <= len {
        return Ok(());
    }
    fit(entries, order, len, 2 * len + 2)
}
