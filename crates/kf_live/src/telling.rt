//! What the words must say about a node, and the functions that write it.
ghost use Rattle.std.specs.Prelude.{◌≡◌, ◌∷◌, List, Some, None, IfSome, IfNone, false};
ghost use Rattle.kf_core.specs.declared.key.Key.{Key};
ghost use Rattle.kf_core.specs.declared.records.Record.{Record};
ghost use Rattle.kf_tree.specs.Causes.{doomed_in};
ghost use Rattle.kf_looks.specs.Lines.{bytes_in};
ghost use Rattle.kf_looks.specs.Links.{IsOfSlot};
ghost use Rattle.kf_looks.specs.Writing.{links_of};
ghost use Rattle.kf_live.specs.Live.{AreSound, SayBut, Say, StandsAt, live_found, IsLeftAt, IsOut, IsGiven};
ghost use Rattle.kf_live.specs.Told.{GrewSound, IsOneMore};

use kf_core::Key;
use kf_looks::{Found, LookupTable, Section, ShortName, Writer};
use kf_table::is_live;
use kf_tree::State;
use std::hint::spin_loop;

/// The place of a node, and what look-ups must find there: nothing if the node is not live.
#[derive(Clone, Copy)]
pub struct Spot {
    pub dir: Key,
    pub name: ShortName,
    pub child: Option<Found>,
}

/// The place of a node, if it has a directory and a short name there.
pub(crate) fn place_of(state: &State, key: Key) -> Option<Spot>
    ensures stands { IfSome result (λ spot. (r : Record) × (r.key ≡ key)
        × StandsAt state.now.tree spot.dir (bytes_in spot.name) r × (spot.child ≡ live_found r)) }
    ensures out { IfNone result (IsOut state.now.tree key) }
{
    let entry = state.record(key)?;
    let dir = entry.parent?;
    let name = ShortName::of(entry.name.bytes())?;
    let child = if is_live(entry) {
        Some(Found {
            key,
            node: entry.node,
        })
    } else {
        None
    };
    Some(Spot { dir, name, child })
}

/// Whether a node is doomed, or no longer linked.
fn is_doomed(state: &State, key: Key) -> bool
    ensures value { result ≡ doomed_in state.now.tree key }
{
    match state.record(key) {
        Some(entry) => entry.marks.doomed,
        None => true,
    }
}

/// Whether a node stands in a doomed directory.
pub(crate) fn is_in_doomed(state: &State, key: Key) -> bool
    ensures not_doomed { result ≡ false → IsLeftAt state.now.tree key None }
{
    match state.parent_of(key) {
        Ok(Some(dir)) => is_doomed(state, dir),
        _ => false,
    }
}

/// Gives a name its child, unless the child's line says so already. So nothing is written if, for example, a
/// live node is activated once more.
fn give_once(looks: &LookupTable, section: Section, spot: &Spot, child: Found) -> Section
    requires table { section.seat.table_id ≡ looks.now.table.shared.table_id }
    requires of_slot { IsOfSlot (links_of section.seat) spot.now.dir (bytes_in spot.now.name) child.key.slot }
    ensures table { result.seat.table_id ≡ section.seat.table_id }
    ensures given { IsGiven spot.now.dir (bytes_in spot.now.name) child
        (links_of section.seat) (links_of result.seat) }
{
    let (section, said) = looks.says(section, spot.dir, &spot.name, child);
    if said {
        return section;
    }
    looks.give(section, spot.dir, &spot.name, child)
}

/// Writes what the tree now says about a node, which stands in this place.
pub(crate) fn tell(
    looks: &LookupTable,
    section: Section,
    state: &State,
    spot: &Spot,
    key: Key,
) -> Section
    requires table { section.seat.table_id ≡ looks.now.table.shared.table_id }
    requires stands { (r : Record) × (r.key ≡ key)
        × StandsAt state.now.tree spot.now.dir (bytes_in spot.now.name) r × (spot.now.child ≡ live_found r) }
    requires says { (owed : List Key) × SayBut owed (links_of section.seat) state.now.tree }
    ensures table { result.seat.table_id ≡ section.seat.table_id }
    ensures told { (owed : List Key) → SayBut (key ∷ owed) (links_of section.seat) state.now.tree
        → SayBut owed (links_of result.seat) state.now.tree }
    ensures sound { AreSound (links_of section.seat) state.now.tree
        → AreSound (links_of result.seat) state.now.tree }
    ensures one { IsOneMore (links_of section.seat) (links_of result.seat) }
{
    let _ = state.root();
    match spot.child {
        Some(found) => give_once(looks, section, spot, found),
        None => looks.take(section, spot.dir, &spot.name, key.slot),
    }
}

/// Publishes what the tree now says about a node, in a separate change, so that the change is short. The
/// node's place is looked up before the change begins.
pub(crate) fn tell_one(looks: &LookupTable, writer: Writer, state: &State, key: Key) -> Writer
    requires table { writer.seat.table_id ≡ looks.now.table.shared.table_id }
    requires says { (owed : List Key) × SayBut owed (links_of writer.seat) state.now.tree }
    ensures table { result.seat.table_id ≡ writer.seat.table_id }
    ensures told { (owed : List Key) → SayBut (key ∷ owed) (links_of writer.seat) state.now.tree
        → SayBut owed (links_of result.seat) state.now.tree }
    ensures sound { AreSound (links_of writer.seat) state.now.tree
        → AreSound (links_of result.seat) state.now.tree }
    ensures one { IsOneMore (links_of writer.seat) (links_of result.seat) }
{
    let Some(spot) = place_of(state, key) else {
        return writer;
    };
    let section = tell(looks, looks.start(writer), state, &spot, key);
    looks.publish(section)
}

/// Pauses after every sixteenth change, for about as long as a look-up takes. Without the pauses, changes
/// that follow each other at once would leave look-ups no time in between.
fn pause_after(changes: u32) {
    if changes % 16 == 0 {
        for _ in 0..16 {
            spin_loop();
        }
    }
}

/// Publishes what the tree now says about each of these nodes, each in a separate change. Between two
/// changes the links are sound: a path that they lead along leads in the tree to the same live node.
pub(crate) fn tell_each(looks: &LookupTable, writer: Writer, state: &State, keys: &[Key]) -> Writer
    requires table { writer.seat.table_id ≡ looks.now.table.shared.table_id }
    requires says { SayBut keys.now (links_of writer.seat) state.now.tree }
    requires sound { AreSound (links_of writer.seat) state.now.tree }
    ensures table { result.seat.table_id ≡ writer.seat.table_id }
    ensures says { Say (links_of result.seat) state.now.tree }
    ensures told { GrewSound state.now.tree (links_of writer.seat) (links_of result.seat) }
{
    let mut writer = writer;
    let mut changes: u32 = 0;
    for key in keys {
        writer = tell_one(looks, writer, state, *key);
        changes = changes.wrapping_add(1);
        pause_after(changes);
    }
    writer
}
