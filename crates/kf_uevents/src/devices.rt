//! Devices: a directory with its attribute groups gets one `add` and one `remove`, as with `device_add` and
//! `device_del`. The files in it are not reported.
//!
//! A device below another device has its own events. Remove it first: the removal of the upper directory
//! reports only the upper device.
ghost use Rattle.std.specs.Prelude.{◌≡◌, IfErr, IfOk, OnErr, OnOk};
ghost use Rattle.kf_core.specs.declared.command.Command.TheVariants.{Activate, Doom};
ghost use Rattle.kf_core.specs.PostOrder.{IsPostOrder};
ghost use Rattle.kf_tree.specs.Causes.{doom_cause, linked_cause};
ghost use Rattle.kf_tree.specs.TreeLogs.{IsAccepted};
ghost use Rattle.kf_shared.specs.Locked.{Adds, IsWhole, Unchanged};
ghost use Rattle.kf_shared.specs.Removal.{keys_of};
ghost use Rattle.kf_words.specs.declared.note.Note.TheVariants.{Did};
ghost use Rattle.kf_uevents.specs.declared.uevent.Action.TheVariants as action_of;
ghost use Rattle.kf_uevents.specs.Devices.{AddRefused, DeviceAdded, DeviceTold};
ghost use Rattle.kf_uevents.specs.News.{TellRefused};
ghost use Rattle.kf_uevents.specs.Removals.{RemoveRefused};

use crate::log::UeventLog;
use crate::news::{event_of, is_told};
use crate::uevent::Action;
use kf_core::{Key, Refusal};
use kf_groups::{Group, create_directory, take_back};
use kf_shared::{Editor, Naming, Removing};

/// Activates the directory of a device and all in it, as [`Editor::activate`] does, and reports one `add` of
/// the directory. If the directory was activated or doomed before, nothing is reported.
///
/// Refusals, in order: NoEntry (not linked), then NoSpace (2^63 events were reported) or NoMemory. After a
/// refusal the tree is as before, and nothing is reported.
pub fn activate_device<N: Naming>(
    editor: &mut Editor<'_, N>,
    log: &mut UeventLog,
    key: Key,
) -> Result<(), Refusal>
    ensures accepted { OnOk result (IsAccepted editor.old.state editor.new.state
        (linked_cause editor.old.state.tree key) (Activate key)) }
    ensures told { OnOk result (DeviceTold editor.old.state.tree editor.old.state.root action_of.Add key
        log.old log.new) }
    ensures refused { IfErr result
        (λ refusal. TellRefused log.old (linked_cause editor.old.state.tree key) refusal) }
    ensures same { OnErr result (editor.new ≡ editor.old) }
    ensures quiet { OnErr result (log.new ≡ log.old) }
    ensures claims { editor.new.claims ≡ editor.old.claims }
{
    let state = editor.state();
    if !is_told(state, Action::Add, key) {
        return editor.activate(key);
    }
    let event = event_of(state, Action::Add, key)?;
    log.check_numbers()?;
    editor.activate(key)?;
    log.push(event);
    Ok(())
}

/// Adds a device (`device_add`): creates its directory under this name, with the groups in it, makes all of
/// that live at once, and reports one `add` of the directory. Returns the directory's key. Once the locks are
/// released, raise the number on which the listeners sleep ([`crate::notify_listeners`]).
///
/// Refusals, in order: NoSpace (2^63 events were reported), those of [`create_directory`], NoMemory. After a
/// refusal, nothing is reported. Unless the refusal is NoMemory, the tree is as it was, but more commands may
/// be stored and generations used. After NoMemory some of the nodes may stay, without being reported.
pub fn add_device<N: Naming>(
    editor: &mut Editor<'_, N>,
    log: &mut UeventLog,
    dir: Key,
    name: &[u8],
    groups: &[Group],
) -> Result<Key, Refusal>
    ensures added { IfOk result
        (λ key. DeviceAdded editor.old editor.new dir name.now groups.now key log.old log.new) }
    ensures refused { IfErr result
        (λ refusal. AddRefused editor.old editor.new dir name.now groups.now log.old refusal) }
    ensures quiet { OnErr result (log.new ≡ log.old) }
    ensures claims { editor.new.claims ≡ editor.old.claims }
{
    log.check_numbers()?;
    let key = create_directory(editor, dir, name, groups)?;
    if activate_device(editor, log, key).is_err() {
        take_back(editor, key);
        return Err(Refusal::NoMemory);
    }
    Ok(key)
}

/// Begins the removal of the directory of a device and all in it, as [`Editor::begin_removal_of`] does, and
/// reports one `remove` of the directory, with the path that it had. If the directory was not activated, or
/// its removal had begun before, nothing is reported.
///
/// The event is in the list before anybody else can take the tree's lock, so before another device of this
/// name can be added. Callbacks that already run may go on until [`Removing::finish`] returns.
///
/// Refusals, in order: NoEntry (not linked), Invalid (the root), then NoSpace (2^63 events were reported),
/// TooManyHolds or NoMemory, whichever is met first. After a refusal nothing is marked, and nothing is
/// reported.
pub fn begin_device_removal<N: Naming>(
    editor: &mut Editor<'_, N>,
    log: &mut UeventLog,
    key: Key,
) -> Result<Removing<N>, Refusal>
    ensures ordered { IfOk result
        (λ removing. IsPostOrder editor.old.state.tree key (keys_of removing)) }
    ensures done { OnOk result (IsAccepted editor.old.state editor.new.state
        (doom_cause editor.old.state.tree editor.old.state.root key) (Doom key)) }
    ensures noted { OnOk result (Adds editor.old editor.new (Did (Doom key))) }
    ensures whole { IsWhole N.table editor.new }
    ensures told { OnOk result (DeviceTold editor.old.state.tree editor.old.state.root action_of.Remove key
        log.old log.new) }
    ensures refused { IfErr result
        (λ refusal. RemoveRefused log.old editor.old.state key refusal) }
    ensures same { OnErr result (Unchanged editor.old editor.new) }
    ensures quiet { OnErr result (log.new ≡ log.old) }
    ensures claims { editor.new.claims ≡ editor.old.claims }
{
    let state = editor.state();
    state.may_doom(key)?;
    if !is_told(state, Action::Remove, key) {
        return editor.begin_removal_of(key);
    }
    let gone = event_of(state, Action::Remove, key)?;
    log.check_numbers()?;
    let removing = editor.begin_removal_of(key)?;
    log.push(gone);
    Ok(removing)
}
