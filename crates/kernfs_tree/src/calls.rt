//! The calls on handles, trees and event numbers. Each returns 0 or more on success. On failure it returns a
//! negative Linux error number, and nothing has changed.
ghost use Rattle.std.specs.Prelude.{◌≡◌, ◌≢◌, ◌⊎◌, ◌<◌, ◌≤◌, pos, negsuc, true, false, IfSome, IsSome};
ghost use Rattle.kf_core.specs.declared.key.Node.TheVariants as kind;
ghost use Rattle.kf_handles.specs.declared.object.Object.TheVariants as behind;
ghost use Rattle.kf_handles.specs.Tasks.{IsInUse, IsNotInUse};
ghost use Rattle.kf_handles.specs.declared.questions.Question.TheVariants as asks;
ghost use Rattle.kf_handles.specs.Answers.{IsAsBefore, ToldWhy};
ghost use Rattle.kf_handles.specs.Calls.{AreLimits, key_in, CountedIn, CreatedIn, IsNewTree, HoldsNode, ActivatedIn, MovedIn, CompactedIn, IsNothing, is_nothing};
ghost use Rattle.kf_handles.specs.LookUps.{find_behind, parent_behind, root_behind, stat_behind, walk_behind, IsRefusal, LinkTextIn, LinkTextRefused, NameIn, NameRefused, NextIn, NextRefusedIn, PathIn, PathRefused, TellsCommands, TellsKey, TellsStat, TellsText};
ghost use Rattle.kf_handles.specs.Numbers.{HasPostOf, IsSameTree, PostRefused, WasNotified, WasFull, TookNumber, IsNoPost, notify_error};
ghost use Rattle.kf_handles.specs.Steps.{WakeOwed};

use kf_core::{Key, Node};
use kf_handles::{KtCommands, KtCounts, KtGiven, KtHandle, KtKey, KtStat, Question, key_of};
use std::alloc::Global;

/// The version of the library: its major number times 1,000, and its minor number.
#[unsafe(no_mangle)]
pub extern "C" fn kt_version() -> i32
    ensures { result ≡ pos 4 }
{
    4
}

/// Makes a handle with nothing behind it. The caller owns the handle.
#[unsafe(no_mangle)]
pub extern "C" fn kt_new(alloc: Global, out: &mut KtGiven) -> i32
    ensures given { result ≡ pos 0 → IfSome out.new.place IsNothing × IsSome out.new.place }
    ensures refused { result ≢ pos 0 → (result ≡ negsuc 11) × (out.new ≡ out.old) }
{
    kf_handles::make(alloc, out)
}

/// Frees a handle and what is behind it. Returns 1 if a removal or a hiding may be waiting for that. Fails
/// with -EBUSY for a tree with a hidden file that somebody may be inside, a gate that is not closed, or a
/// pass that is inside.
#[unsafe(no_mangle)]
pub extern "C" fn kt_delete(handle: KtHandle) -> i32
    ensures gone { (result ≡ pos 0) ⊎ (result ≡ pos 1) → IsNotInUse handle.place.object }
    ensures owed { (result ≡ pos 0) ⊎ (result ≡ pos 1) → WakeOwed handle.place.seat result }
    ensures busy { result ≢ pos 0 → result ≢ pos 1 →
        (result ≡ negsuc 15) × IsInUse handle.place.object }
{
    kf_handles::delete(handle)
}

/// Frees what is behind a handle: a hold is released, and a call is ended first. Returns 1 if a removal or a
/// hiding may be waiting for that. Fails with -EBUSY, and frees nothing, for a tree with a hidden file that
/// somebody may be inside, a gate that is not closed, or a pass that is inside.
#[unsafe(no_mangle)]
pub extern "C" fn kt_clear(handle: &mut KtHandle) -> i32
    ensures empty { (result ≡ pos 0) ⊎ (result ≡ pos 1) →
        IsNothing handle.new.place × IsNotInUse handle.old.place.object }
    ensures owed { (result ≡ pos 0) ⊎ (result ≡ pos 1) → WakeOwed handle.old.place.seat result }
    ensures busy { result ≢ pos 0 → result ≢ pos 1 → (result ≡ negsuc 15)
        × IsInUse handle.old.place.object × (handle.new.place ≡ handle.old.place) }
{
    kf_handles::clear(handle)
}

/// Makes a tree with only the root (`kernfs_create_root`), behind a handle with nothing behind it.
#[unsafe(no_mangle)]
pub extern "C" fn kt_create_root(
    alloc: Global,
    handle: &mut KtHandle,
    slots: u32,
    holds: u32,
) -> i32
    ensures made { result ≡ pos 0 → IsNewTree slots holds handle.new.place.object }
    ensures taken { is_nothing handle.old.place ≡ false → result ≡ negsuc 21 }
    ensures was { result ≡ pos 0 → IsNothing handle.old.place }
    ensures same { result ≢ pos 0 → handle.new.place ≡ handle.old.place }
    ensures unlawful { (¬ AreLimits slots holds) → result ≡ negsuc 21 }
    ensures why { is_nothing handle.old.place ≡ true → AreLimits slots holds → result ≢ pos 0 →
        result ≡ negsuc 11 }
{
    kf_handles::make_tree(alloc, handle, slots, holds, 0)
}

/// The key of the root.
#[unsafe(no_mangle)]
pub extern "C" fn kt_root(tree: &mut KtHandle, out: &mut KtKey) -> i32
    ensures same { tree.new.place ≡ tree.old.place }
    ensures told { TellsKey (root_behind tree.old.place.object) result out.old out.new }
{
    kf_handles::root(tree, out)
}

/// Creates a directory (`kernfs_create_dir_ns`).
#[unsafe(no_mangle)]
pub extern "C" fn kt_create_dir(
    tree: &mut KtHandle,
    parent: KtKey,
    name: &[u8],
    live: bool,
    out: &mut KtKey,
) -> i32
    ensures created { result ≡ pos 0 →
        CreatedIn tree.old.place.object tree.new.place.object parent name.now kind.Dir live out.new }
    ensures kept { result ≢ pos 0 →
        IsAsBefore tree.old.place.object tree.new.place.object × (out.new ≡ out.old) }
    ensures beside { tree.new.place.seat ≡ tree.old.place.seat }
    ensures why { result ≢ pos 0 → ToldWhy
        (asks.Create (key_in parent) name.entry kind.Dir live)
        tree.old.place.object tree.new.place.object result }
{
    kf_handles::create(tree, parent, name, Node::Dir, live, out)
}

/// Creates an attribute file (`__kernfs_create_file`). Its mode may have only permission bits (0777).
#[unsafe(no_mangle)]
pub extern "C" fn kt_create_file(
    tree: &mut KtHandle,
    parent: KtKey,
    name: &[u8],
    mode: u16,
    tag: u64,
    live: bool,
    out: &mut KtKey,
) -> i32
    ensures created { result ≡ pos 0 →
        CreatedIn tree.old.place.object tree.new.place.object parent name.now (kind.File mode tag) live
        out.new }
    ensures kept { result ≢ pos 0 →
        IsAsBefore tree.old.place.object tree.new.place.object × (out.new ≡ out.old) }
    ensures beside { tree.new.place.seat ≡ tree.old.place.seat }
    ensures unfit { 511 < mode → result ≡ negsuc 21 }
    ensures why { mode ≤ 511 → result ≢ pos 0 → ToldWhy
        (asks.Create (key_in parent) name.entry (kind.File mode tag) live)
        tree.old.place.object tree.new.place.object result }
{
    kf_handles::create_file(tree, parent, name, mode, tag, live, out)
}

/// Creates a link to a node (`kernfs_create_link`).
#[unsafe(no_mangle)]
pub extern "C" fn kt_create_link(
    tree: &mut KtHandle,
    parent: KtKey,
    name: &[u8],
    target: KtKey,
    live: bool,
    out: &mut KtKey,
) -> i32
    ensures created { result ≡ pos 0 →
        CreatedIn tree.old.place.object tree.new.place.object parent name.now (kind.Link (key_in target)) live
        out.new }
    ensures kept { result ≢ pos 0 →
        IsAsBefore tree.old.place.object tree.new.place.object × (out.new ≡ out.old) }
    ensures beside { tree.new.place.seat ≡ tree.old.place.seat }
    ensures why { result ≢ pos 0 → ToldWhy
        (asks.Create (key_in parent) name.entry (kind.Link (key_in target)) live)
        tree.old.place.object tree.new.place.object result }
{
    let node = Node::Link {
        target: key_of(target),
    };
    kf_handles::create(tree, parent, name, node, live, out)
}

/// Makes the nodes of a subtree live (`kernfs_activate`).
#[unsafe(no_mangle)]
pub extern "C" fn kt_activate(tree: &mut KtHandle, key: KtKey) -> i32
    ensures activated { result ≡ pos 0 → ActivatedIn tree.old.place.object tree.new.place.object key }
    ensures kept { result ≢ pos 0 → IsAsBefore tree.old.place.object tree.new.place.object }
    ensures beside { tree.new.place.seat ≡ tree.old.place.seat }
    ensures why { result ≢ pos 0 →
        ToldWhy (asks.Activate (key_in key)) tree.old.place.object tree.new.place.object result }
{
    kf_handles::change(tree, Question::Activate(key_of(key)))
}

/// Moves a node into a directory, under a name (`kernfs_rename_ns`).
#[unsafe(no_mangle)]
pub extern "C" fn kt_rename(tree: &mut KtHandle, key: KtKey, dir: KtKey, name: &[u8]) -> i32
    ensures moved { result ≡ pos 0 → MovedIn tree.old.place.object tree.new.place.object key dir name.now }
    ensures kept { result ≢ pos 0 → IsAsBefore tree.old.place.object tree.new.place.object }
    ensures beside { tree.new.place.seat ≡ tree.old.place.seat }
    ensures why { result ≢ pos 0 → ToldWhy
        (asks.Rename (key_in key) (key_in dir) name.entry)
        tree.old.place.object tree.new.place.object result }
{
    let key = Key {
        slot: key.slot,
        generation: key.generation,
    };
    let dir = Key {
        slot: dir.slot,
        generation: dir.generation,
    };
    let question = Question::Rename { key, dir, name };
    kf_handles::change(tree, question)
}

/// Finds the child with this name, live or not (`kernfs_find_ns`).
#[unsafe(no_mangle)]
pub extern "C" fn kt_find(tree: &mut KtHandle, dir: KtKey, name: &[u8], out: &mut KtKey) -> i32
    ensures same { tree.new.place ≡ tree.old.place }
    ensures told { TellsKey (find_behind tree.old.place.object (key_in dir) name.now) result out.old out.new }
{
    kf_handles::find(tree, dir, name, out)
}

/// Finds the node that a path names, live or not (`kernfs_walk_ns`).
#[unsafe(no_mangle)]
pub extern "C" fn kt_walk(tree: &mut KtHandle, path: &[u8], out: &mut KtKey) -> i32
    ensures same { tree.new.place ≡ tree.old.place }
    ensures told { TellsKey (walk_behind tree.old.place.object path.now) result out.old out.new }
{
    kf_handles::walk(tree, path, out)
}

/// The name of the first live child after the name `after`, in byte order. An empty `after` comes before each
/// name.
#[unsafe(no_mangle)]
pub extern "C" fn kt_next(tree: &mut KtHandle, dir: KtKey, after: &[u8], out: &mut [u8]) -> i64
    ensures same { tree.new.place ≡ tree.old.place }
    ensures told { TellsText (NextIn tree.old.place.object (key_in dir) after.now)
        (NextRefusedIn tree.old.place.object (key_in dir) after.now) result out.old out.new }
{
    kf_handles::next(tree, dir, after, out)
}

/// Gets the stat of a node.
#[unsafe(no_mangle)]
pub extern "C" fn kt_stat(tree: &mut KtHandle, key: KtKey, out: &mut KtStat) -> i32
    ensures same { tree.new.place ≡ tree.old.place }
    ensures told { TellsStat (stat_behind tree.old.place.object (key_in key)) result out.old out.new }
{
    kf_handles::tell(tree, key, out)
}

/// The text of a link (`kernfs_get_target_path`).
#[unsafe(no_mangle)]
pub extern "C" fn kt_readlink(tree: &mut KtHandle, key: KtKey, out: &mut [u8]) -> i64
    ensures same { tree.new.place ≡ tree.old.place }
    ensures told { TellsText (LinkTextIn tree.old.place.object (key_in key))
        (LinkTextRefused tree.old.place.object (key_in key)) result out.old out.new }
{
    kf_handles::link_text(tree, key, out)
}

/// The directory of a node (`kernfs_get_parent`).
#[unsafe(no_mangle)]
pub extern "C" fn kt_parent(tree: &mut KtHandle, key: KtKey, out: &mut KtKey) -> i32
    ensures same { tree.new.place ≡ tree.old.place }
    ensures told { TellsKey (parent_behind tree.old.place.object (key_in key)) result out.old out.new }
{
    kf_handles::parent(tree, key, out)
}

/// The name of a node (`kernfs_name`).
#[unsafe(no_mangle)]
pub extern "C" fn kt_name(alloc: Global, tree: &mut KtHandle, key: KtKey, out: &mut [u8]) -> i64
    ensures same { tree.new.place ≡ tree.old.place }
    ensures told { TellsText (NameIn tree.old.place.object (key_in key))
        (NameRefused tree.old.place.object (key_in key)) result out.old out.new }
{
    kf_handles::name(alloc, tree, key, out)
}

/// The path of a node (`kernfs_path_from_node` from the root).
#[unsafe(no_mangle)]
pub extern "C" fn kt_path(tree: &mut KtHandle, key: KtKey, out: &mut [u8]) -> i64
    ensures same { tree.new.place ≡ tree.old.place }
    ensures told { TellsText (PathIn tree.old.place.object (key_in key))
        (PathRefused tree.old.place.object (key_in key)) result out.old out.new }
{
    kf_handles::path(tree, key, out)
}

/// Replaces the stored commands by the tree's canonical list of commands.
#[unsafe(no_mangle)]
pub extern "C" fn kt_compact(tree: &mut KtHandle) -> i32
    ensures compacted { result ≡ pos 0 → CompactedIn tree.old.place.object tree.new.place.object }
    ensures kept { result ≢ pos 0 → IsAsBefore tree.old.place.object tree.new.place.object }
    ensures beside { tree.new.place.seat ≡ tree.old.place.seat }
    ensures why { result ≢ pos 0 → ToldWhy
        asks.Compact
        tree.old.place.object tree.new.place.object result }
{
    kf_handles::change(tree, Question::Compact)
}

/// Gets how many commands the tree stores, and how many it would store at most after a compaction. This takes
/// constant time.
#[unsafe(no_mangle)]
pub extern "C" fn kt_commands(tree: &mut KtHandle, out: &mut KtCommands) -> i32
    ensures same { tree.new.place ≡ tree.old.place }
    ensures told { TellsCommands tree.old.place.object result out.old out.new }
{
    kf_handles::commands(tree, out)
}

/// Takes a hold of a node (`kernfs_get`), behind a handle with nothing behind it.
#[unsafe(no_mangle)]
pub extern "C" fn kt_hold(tree: &mut KtHandle, key: KtKey, out: &mut KtHandle) -> i32
    ensures held { result ≡ pos 0 → HoldsNode tree.old.place.object key out.new.place.seat
        × (out.new.place.object ≡ behind.Empty) }
    ensures tree { IsAsBefore tree.old.place.object tree.new.place.object }
    ensures taken { is_nothing out.old.place ≡ false → result ≡ negsuc 21 }
    ensures was { result ≡ pos 0 → IsNothing out.old.place }
    ensures same { result ≢ pos 0 → out.new.place ≡ out.old.place }
    ensures beside { tree.new.place.seat ≡ tree.old.place.seat }
    ensures why { is_nothing out.old.place ≡ true → result ≢ pos 0 →
        ToldWhy (asks.Hold (key_in key)) tree.old.place.object tree.new.place.object result }
{
    kf_handles::hold(tree, key, out)
}

/// Counts the holds and the users of a node, by one load of each of its two words.
#[unsafe(no_mangle)]
pub extern "C" fn kt_counts(tree: &mut KtHandle, key: KtKey, out: &mut KtCounts) -> i32
    ensures counted { result ≡ pos 0 →
        CountedIn tree.old.place.object tree.new.place.object (key_in key) out.new }
    ensures kept { IsAsBefore tree.old.place.object tree.new.place.object }
    ensures same { result ≢ pos 0 → out.new ≡ out.old }
    ensures beside { tree.new.place.seat ≡ tree.old.place.seat }
    ensures why { result ≢ pos 0 → ToldWhy
        (asks.Counts (key_in key)) tree.old.place.object tree.new.place.object result }
{
    kf_handles::counts(tree, key, out)
}

/// Opens a post (event counter) of a node's slot, behind a handle with nothing behind it.
#[unsafe(no_mangle)]
pub extern "C" fn kt_event_open(tree: &mut KtHandle, key: KtKey, out: &mut KtHandle) -> i32
    ensures posted { result ≡ pos 0 →
        HasPostOf tree.old.place.object (key_in key) out.new.place.object }
    ensures tree { IsSameTree tree.old.place.object tree.new.place.object }
    ensures taken { is_nothing out.old.place ≡ false → result ≡ negsuc 21 }
    ensures was { result ≡ pos 0 → IsNothing out.old.place }
    ensures same { result ≢ pos 0 → out.new.place ≡ out.old.place }
    ensures beside { tree.new.place.seat ≡ tree.old.place.seat }
    ensures why { is_nothing out.old.place ≡ true → result ≢ pos 0 →
        IsRefusal (PostRefused tree.old.place.object (key_in key)) result }
{
    kf_handles::post(tree, key, out)
}

/// Raises the event number of a post's slot (`kernfs_notify`).
#[unsafe(no_mangle)]
pub extern "C" fn kt_notify(post: &mut KtHandle) -> i32
    ensures notified { result ≡ pos 0 → WasNotified post.old.place.object post.new.place.object }
    ensures full { result ≢ pos 0 → WasFull post.old.place.object post.new.place.object }
    ensures beside { post.new.place.seat ≡ post.old.place.seat }
    ensures why { result ≢ pos 0 → result ≡ notify_error post.old.place.object }
{
    kf_handles::notify(post)
}

/// The event number of a post's slot (`kernfs_open_node.event`).
#[unsafe(no_mangle)]
pub extern "C" fn kt_event(post: &mut KtHandle, out: &mut u64) -> i32
    ensures took { result ≡ pos 0 → TookNumber post.old.place.object out.new post.new.place.object }
    ensures same { result ≢ pos 0 →
        (post.new.place.object ≡ post.old.place.object) × (out.new ≡ out.old) }
    ensures beside { post.new.place.seat ≡ post.old.place.seat }
    ensures why { result ≢ pos 0 → (result ≡ negsuc 21) × IsNoPost post.old.place.object }
{
    kf_handles::number(post, out)
}
