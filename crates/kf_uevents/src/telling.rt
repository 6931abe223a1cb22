//! Changes of a tree that report their events, under the tree's lock.
ghost use Rattle.std.specs.Prelude.{◌≡◌, List, reverse, IfErr, IfOk, OnErr, OnOk};
ghost use Rattle.kf_core.specs.declared.command.Command.TheVariants.{Activate, Doom};
ghost use Rattle.kf_core.specs.declared.key.Key.{Key};
ghost use Rattle.kf_core.specs.PostOrder.{IsPostOrder};
ghost use Rattle.kf_tree.specs.Causes.{doom_cause, linked_cause};
ghost use Rattle.kf_tree.specs.TreeLogs.{IsAccepted};
ghost use Rattle.kf_shared.specs.Locked.{IsWhole, Unchanged};
ghost use Rattle.kf_shared.specs.Removal.{keys_of};
ghost use Rattle.kf_uevents.specs.declared.uevent.Action.TheVariants as action_of;
ghost use Rattle.kf_uevents.specs.News.{NewsTold, OneTold, TellRefused};
ghost use Rattle.kf_uevents.specs.Removals.{RemoveRefused};

use crate::log::UeventLog;
use crate::news::{event_of, events_of};
use crate::uevent::Action;
use kf_core::{Key, Refusal};
use kf_shared::{Editor, Naming, Removing};

/// Activates each node of the subtree that is not doomed, as [`Editor::activate`] does, and reports an `add`
/// of each that was not activated before. A node is reported after those above it.
///
/// Refusals, in order: NoEntry (not linked), then NoSpace (2^63 events were reported) or NoMemory. After a
/// refusal the tree is as before, and nothing is reported.
pub fn activate_and_tell<N: Naming>(
    editor: &mut Editor<'_, N>,
    log: &mut UeventLog,
    key: Key,
) -> Result<(), Refusal>
    ensures accepted { OnOk result (IsAccepted editor.old.state editor.new.state
        (linked_cause editor.old.state.tree key) (Activate key)) }
    ensures told { OnOk result ((keys : List Key) × IsPostOrder editor.old.state.tree key keys
        × NewsTold editor.old.state.tree editor.old.state.root action_of.Add (reverse keys) log.old log.new) }
    ensures refused { IfErr result
        (λ refusal. TellRefused log.old (linked_cause editor.old.state.tree key) refusal) }
    ensures same { OnErr result (editor.new ≡ editor.old) }
    ensures quiet { OnErr result (log.new ≡ log.old) }
    ensures claims { editor.new.claims ≡ editor.old.claims }
{
    let state = editor.state();
    let mut keys = state.post_order(key)?;
    keys.reverse();
    log.check_numbers()?;
    let events = events_of(state, log.alloc(), Action::Add, keys.as_slice())?;
    editor.activate(key)?;
    log.push_all(events);
    Ok(())
}

/// Begins the removal of the node of this key, as [`Editor::begin_removal_of`] does, and reports a `remove`
/// of each node of the subtree that was activated and not doomed before. An event has the path that its node
/// had. A node is reported after those below it.
///
/// Refusals, in order: NoEntry (not linked), Invalid (the root), then NoSpace (2^63 events were reported),
/// TooManyHolds or NoMemory, whichever is met first. After a refusal nothing is marked, and nothing is
/// reported.
pub fn begin_removal_and_tell<N: Naming>(
    editor: &mut Editor<'_, N>,
    log: &mut UeventLog,
    key: Key,
) -> Result<Removing<N>, Refusal>
    ensures ordered { IfOk result
        (λ removing. IsPostOrder editor.old.state.tree key (keys_of removing)) }
    ensures done { OnOk result (IsAccepted editor.old.state editor.new.state
        (doom_cause editor.old.state.tree editor.old.state.root key) (Doom key)) }
    ensures whole { IsWhole N.table editor.new }
    ensures told { OnOk result ((keys : List Key) × IsPostOrder editor.old.state.tree key keys
        × NewsTold editor.old.state.tree editor.old.state.root action_of.Remove keys log.old log.new) }
    ensures refused { IfErr result
        (λ refusal. RemoveRefused log.old editor.old.state key refusal) }
    ensures same { OnErr result (Unchanged editor.old editor.new) }
    ensures quiet { OnErr result (log.new ≡ log.old) }
    ensures claims { editor.new.claims ≡ editor.old.claims }
{
    let state = editor.state();
    state.may_doom(key)?;
    let keys = state.post_order(key)?;
    log.check_numbers()?;
    let events = events_of(state, log.alloc(), Action::Remove, keys.as_slice())?;
    let removing = editor.begin_removal_of(key)?;
    log.push_all(events);
    Ok(removing)
}

/// Reports that a linked node has changed (`kobject_uevent` with `KOBJ_CHANGE`).
///
/// Refusals, in order: NoEntry (not linked), then NoSpace (2^63 events were reported) or NoMemory. After a
/// refusal nothing is reported.
pub fn tell_change<N: Naming>(
    editor: &Editor<'_, N>,
    log: &mut UeventLog,
    key: Key,
) -> Result<(), Refusal>
    ensures told { OnOk result
        (OneTold editor.now.state.tree editor.now.state.root action_of.Change key log.old log.new) }
    ensures refused { IfErr result
        (λ refusal. TellRefused log.old (linked_cause editor.now.state.tree key) refusal) }
    ensures quiet { OnErr result (log.new ≡ log.old) }
{
    let event = event_of(editor.state(), Action::Change, key)?;
    log.check_numbers()?;
    log.push(event);
    Ok(())
}
