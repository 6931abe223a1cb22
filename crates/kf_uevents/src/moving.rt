//! A move that reports its event.
ghost use Rattle.std.specs.Prelude.{◌≡◌, true, false, IfErr, IfOk, None, OnErr, OnOk};
ghost use Rattle.kf_core.specs.declared.command.Command.TheVariants.{Rename};
ghost use Rattle.kf_core.specs.declared.refusal.Refusal.TheVariants as refusal_of;
ghost use Rattle.kf_table.specs.Children.{is_there_already};
ghost use Rattle.kf_tree.specs.TreeLogs.{IsAccepted};
ghost use Rattle.kf_tree.specs.Causes.{linked_cause};
ghost use Rattle.kf_shared.specs.Locked.{move_cause};
ghost use Rattle.kf_shared.specs.Noted.{KeepsWords};
ghost use Rattle.kf_uevents.specs.declared.uevent.Action.TheVariants as action_of;
ghost use Rattle.kf_uevents.specs.Moves.{IsToMove, MoveTold, path_in};
ghost use Rattle.kf_uevents.specs.News.{TellRefused};

use crate::log::UeventLog;
use crate::uevent::{Action, Uevent};
use kf_core::{Key, Refusal};
use kf_shared::{Editor, Naming};
use kf_tree::State;
use std::alloc::AllocError;

// Makes the path of a name in a directory from the directory's path.
fn extend_path(path: &mut Vec<u8>, name: &[u8]) -> Result<(), AllocError>
    ensures extended { OnOk result (path.new.items ≡ path_in path.old.items name.now) }
{
    if path.len() > 1 {
        path.push(b'/')?;
    }
    path.extend_from_slice(name)?;
    Ok(())
}

// Makes the event of a move. The node and the directory are linked.
fn move_of(state: &State, key: Key, dir: Key, name: &[u8]) -> Result<Uevent, Refusal>
    requires linked { linked_cause state.now.tree key ≡ None }
    requires directory { linked_cause state.now.tree dir ≡ None }
    ensures event { IfOk result
        (λ event. IsToMove state.now.tree state.now.root key dir name.now event) }
    ensures refused { IfErr result (λ refusal. refusal ≡ refusal_of.NoMemory) }
{
    let from = state.path_of(key)?;
    let mut path = state.path_of(dir)?;
    extend_path(&mut path, name)?;
    Ok(Uevent {
        action: Action::Move,
        key,
        path,
        from: Some(from),
    })
}

/// Moves a node into a directory under a name, as [`Editor::rename`] does, and reports the move, with the
/// node's old path and its new one. If the node is there already, nothing is stored, and nothing is reported.
///
/// Refusals, in order: those of [`Editor::rename`] except NoMemory, then, if the node is not there already,
/// NoSpace (2^63 events were reported) or NoMemory. After a refusal the tree is as before, and nothing is
/// reported.
pub fn rename_and_tell<N: Naming>(
    editor: &mut Editor<'_, N>,
    log: &mut UeventLog,
    key: Key,
    dir: Key,
    name: &[u8],
) -> Result<(), Refusal>
    ensures no_cause { OnOk result (move_cause editor.old key dir name.now ≡ None) }
    ensures stays { OnOk result (is_there_already editor.old.state.tree key dir name.now ≡ true →
        (editor.new.state ≡ editor.old.state) × (log.new ≡ log.old)) }
    ensures accepted { OnOk result (is_there_already editor.old.state.tree key dir name.now ≡ false →
        IsAccepted editor.old.state editor.new.state (move_cause editor.old key dir name.now)
        (Rename key dir name.now)) }
    ensures told { OnOk result (is_there_already editor.old.state.tree key dir name.now ≡ false →
        MoveTold editor.old.state.tree editor.new.state.tree editor.old.state.root key log.old log.new) }
    ensures refused { IfErr result
        (λ refusal. TellRefused log.old (move_cause editor.old key dir name.now) refusal) }
    ensures same_place { OnErr result (move_cause editor.old key dir name.now ≡ None →
        is_there_already editor.old.state.tree key dir name.now ≡ false) }
    ensures same { OnErr result (editor.new.state ≡ editor.old.state) }
    ensures quiet { OnErr result (log.new ≡ log.old) }
    ensures claims { editor.new.claims ≡ editor.old.claims }
    ensures words { KeepsWords editor.old.master editor.new.master }
{
    let state = editor.state();
    if !state.may_rename(key, dir, name)? {
        return Ok(());
    }
    log.check_numbers()?;
    let event = move_of(state, key, dir, name)?;
    editor.rename(key, dir, name)?;
    log.push(event);
    Ok(())
}
