//! The removal of a device by one call, which reports it, wakes all threads that sleep, and waits.
ghost use Rattle.std.specs.Prelude.{◌≡◌, ◌++◌, [], ◌∷◌, IfErr, IfOk, OnErr};
ghost use Rattle.kf_files.specs.Telling.{WasTold, WereTold};
ghost use Rattle.kf_notify.specs.PostStates.{id_of};
ghost use Rattle.kf_shared.specs.Receipts.{AreOf, IsRemovalOf};
ghost use Rattle.kf_shared.specs.Removal.{keys_of};
ghost use Rattle.kf_uevents.specs.Devices.{DeviceRefused};

use crate::devices::begin_device_removal;
use crate::log::UeventLog;
use kf_core::{Key, Refusal};
use kf_files::tell_removed;
use kf_notify::Posts;
use kf_shared::{Editor, Naming};
use kf_words::Parted;
use std::sync::{RwLock, Wait};

/// Raises the event number of the slot of this key, if the slot has one. With the root's key it wakes each
/// [`crate::Listener`] that sleeps on the root's slot. It allocates nothing. Call it after an event was added
/// to the list, once the list is unlocked.
#[tactic(auto, using(crate::proofs::Reported::woken_by, crate::proofs::Reported::woken_nobody))]
pub fn notify_listeners(posts: &mut Posts, root: Key)
    ensures told { WasTold posts.old root.slot posts.new }
    ensures posts { id_of posts.new ≡ id_of posts.old }
{
    if root.slot < posts.slots() {
        let _ = posts.notify(root.slot);
    }
}

/// Removes a device (`device_del`): its directory and all in it, as [`Editor::remove_key`] does.
/// [`begin_device_removal`] reports one `remove` of the directory, under both locks. Then `remove_device`
/// unlocks both. It wakes the threads that sleep until a file there changes, and the listeners, which sleep
/// on the root's slot. Finally it waits until no callback runs on any of the nodes, and takes the nodes
/// out of the tree. When it returns, no callback runs on them, and none will start. The receipts are in
/// post-order, with the directory's own last.
///
/// Refusals: those of [`begin_device_removal`]. After a refusal nothing is marked or reported, nobody is
/// woken, and the tree is unlocked.
///
/// Context: takes the list's lock under the tree's lock; sleeps once it has unlocked both, and locks the tree
/// again.
pub fn remove_device<N: Naming, R: Wait>(
    editor: Editor<'_, N>,
    rt: &R,
    log: &RwLock<UeventLog>,
    posts: &mut Posts,
    key: Key,
) -> Result<Vec<Parted>, Refusal>
    ensures tables { IfOk result (λ receipts. AreOf N.table receipts.items) }
    ensures listed { IfOk result (λ receipts. IsRemovalOf editor.entry.state key (keys_of receipts.items)) }
    ensures refused { IfErr result (λ refusal. DeviceRefused editor.entry.state key refusal) }
    ensures told { IfOk result (λ receipts. WereTold posts.old
        (keys_of receipts.items ++ editor.entry.state.root ∷ []) posts.new) }
    ensures untold { OnErr result (posts.new ≡ posts.old) }
    ensures posts { id_of posts.new ≡ id_of posts.old }
{
    let mut editor = editor;
    let root = editor.state().root();
    let begun = begin_device_removal(&mut editor, &mut *log.write(rt), key);
    let tree = editor.let_go();
    let removing = begun?;
    tell_removed(posts, &removing);
    notify_listeners(posts, root);
    Ok(removing.finish(rt, tree))
}
