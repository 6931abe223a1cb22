//! Publishes how nodes have changed. If no slot has words, nothing is published.
ghost use Rattle.std.specs.Prelude.{◌≡◌, ◌<◌, ◌∷◌, [], IfSome};
ghost use Rattle.kf_core.specs.Tree.{Tree};
ghost use Rattle.kf_looks.specs.Lines.{bytes_in};
ghost use Rattle.kf_looks.specs.Links.{IsOfSlot};
ghost use Rattle.kf_looks.specs.Writing.{links_of};
ghost use Rattle.kf_live.specs.Live.{AreSound, SayBut, Say, IsLeftAt, IsMove, Stood, Writes, without};
ghost use Rattle.kf_live.specs.Told.{GrewSound, links_by};

use crate::telling::{Spot, is_in_doomed, place_of, tell, tell_each, tell_one};
use kf_core::Key;
use kf_looks::{LookupTable, Section, Writer};
use kf_tree::State;

/// Publishes what the tree now says about each of these nodes, one after the other. So each change that a
/// look-up meets is that of one node.
///
/// Condition: except about these nodes, the words say what the tree says; and whatever path they lead along,
/// they lead to what is live in the tree.
pub(crate) fn publish(
    looks: &LookupTable,
    writer: Option<Writer>,
    state: &State,
    keys: &[Key],
) -> Option<Writer>
    requires says { Writes looks.now (λ links. SayBut keys.now links state.now.tree) writer }
    requires sound { Writes looks.now (λ links. AreSound links state.now.tree) writer }
    ensures says { Writes looks.now (λ links. Say links state.now.tree) result }
    ensures told { GrewSound state.now.tree (links_by writer) (links_by result) }
{
    if looks.slots == 0 {
        return writer;
    }
    let Some(writer) = writer else {
        return None;
    };
    Some(tell_each(looks, writer, state, keys))
}

/// Publishes what the tree now says about one node.
pub(crate) fn publish_one(
    looks: &LookupTable,
    writer: Option<Writer>,
    state: &State,
    key: Key,
) -> Option<Writer>
    requires says { Writes looks.now (λ links. SayBut (key ∷ []) links state.now.tree) writer }
    ensures says { Writes looks.now (λ links. Say links state.now.tree) result }
    ensures told { GrewSound state.now.tree (links_by writer) (links_by result) }
{
    if looks.slots == 0 {
        return writer;
    }
    let Some(writer) = writer else {
        return None;
    };
    Some(tell_one(looks, writer, state, key))
}

/// The place of a node before it is moved. If no slot has words, the place is not needed.
pub(crate) fn place_before(looks: &LookupTable, state: &State, key: Key) -> Option<Spot>
    ensures stood { 0 < looks.now.slots → Stood state.now.tree key result }
{
    if looks.slots == 0 {
        return None;
    }
    place_of(state, key)
}

/// The place in which the words may still have a doomed node that is about to be unlinked. There is one if
/// its directory is doomed too and it has a short name there. (A doom withdraws only the name of its top, and
/// no path leads below that.)
pub(crate) fn place_left(looks: &LookupTable, state: &State, key: Key) -> Option<Spot>
    ensures left { 0 < looks.now.slots → IsLeftAt state.now.tree key result }
{
    if looks.slots == 0 || !is_in_doomed(state, key) {
        return None;
    }
    place_of(state, key)
}

/// Withdraws a name from the node that stood under it.
fn withdraw(looks: &LookupTable, section: Section, was: Option<Spot>, key: Key) -> Section
    requires table { section.seat.table_id ≡ looks.now.table.shared.table_id }
    requires of_slot { IfSome was
        (λ spot. IsOfSlot (links_of section.seat) spot.dir (bytes_in spot.name) key.slot) }
    ensures table { result.seat.table_id ≡ section.seat.table_id }
    ensures links { links_of result.seat ≡ without was (links_of section.seat) }
{
    match was {
        Some(spot) => looks.take(section, spot.dir, &spot.name, key.slot),
        None => section,
    }
}

/// Publishes that a node has left its old place, and that it is now in its new place. Both are one change, so
/// no look-up can come between the two.
pub(crate) fn publish_move(
    looks: &LookupTable,
    writer: Option<Writer>,
    was: Option<Spot>,
    state: &State,
    key: Key,
) -> Option<Writer>
    requires says { Writes looks.now (λ links. IsMove links key was state.now.tree) writer }
    ensures says { Writes looks.now (λ links. Say links state.now.tree) result }
    ensures told { GrewSound state.now.tree (links_by writer) (links_by result) }
{
    if looks.slots == 0 {
        return writer;
    }
    let Some(writer) = writer else {
        return None;
    };
    let place = place_of(state, key);
    let section = withdraw(looks, looks.start(writer), was, key);
    match place {
        Some(spot) => Some(looks.publish(tell(looks, section, state, &spot, key))),
        None => Some(looks.publish(section)),
    }
}

/// Publishes that a doomed node has left the tree. If the words may still have its name, it is withdrawn.
pub(crate) fn publish_gone(
    looks: &LookupTable,
    writer: Option<Writer>,
    left: Option<Spot>,
    key: Key,
) -> Option<Writer>
    requires of_slot { Writes looks.now (λ links. IfSome left
        (λ spot. IsOfSlot links spot.dir (bytes_in spot.name) key.slot)) writer }
    ensures gone { (t : Tree) → Writes looks.now (λ links. Say (without left links) t) writer
        → Writes looks.now (λ links. Say links t) result }
    ensures told { (t : Tree) → Writes looks.now (λ links. Say (without left links) t) writer
        → GrewSound t (links_by writer) (links_by result) }
{
    if looks.slots == 0 {
        return writer;
    }
    let Some(spot) = left else {
        return writer;
    };
    let Some(writer) = writer else {
        return None;
    };
    let section = looks.take(looks.start(writer), spot.dir, &spot.name, key.slot);
    Some(looks.publish(section))
}
