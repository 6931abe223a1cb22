//! Taking a device out of a tree: its link and its directory, each by its name in its base directory.
ghost use Rattle.std.specs.Prelude.{◌≡◌, ◌||◌, IfOk, IfErr, OnErr, Ok, Err, MatchResult, is_some};
ghost use Rattle.kf_shared.specs.Locked.{Unchanged};
ghost use Rattle.kf_shared.specs.Receipts.{HoldsRefusal};
ghost use Rattle.kf_device.specs.Removals.{Begins, BeginsBoth, dir_wanted, entry_at, fits, link_wanted};

use crate::tags::meaning;
use kf_core::{Key, Node, Refusal};
use kf_shared::{Editor, Naming, Removing, SharedTree, release_all};
use kf_tree::State;
use std::sync::Wait;

/// Where devices have their directories.
const DEVICES: &[u8] = b"/devices";

/// Where devices have their links.
const LINKS: &[u8] = b"/bus/devices";

/// The entry with this whole name in the directory of this path.
fn entry(state: &State, path: &[u8], name: &[u8]) -> Result<Key, Refusal>
    ensures told { result ≡ entry_at state.now path.now name.now }
{
    let dir = state.walk(path)?;
    state.find(dir, name)
}

/// Which node a removal by name is meant for.
#[derive(Clone, Copy, Debug, PartialEq, Eq)]
pub(crate) enum Wanted {
    /// Whatever has the name.
    Any,
    /// The directory of this key.
    Directory(Key),
    /// A link to the directory of this key.
    LinkTo(Key),
}

/// Whether the node of a key is the wanted one.
fn fits(state: &State, key: Key, wanted: Wanted) -> bool
    ensures told { result ≡ fits state.now.tree wanted key }
{
    match wanted {
        Wanted::Any => true,
        Wanted::Directory(dir) => key == dir,
        Wanted::LinkTo(dir) => match state.stat(key) {
            Ok(stat) => match stat.node {
                Node::Link { target } => target == dir,
                Node::Dir | Node::File { mode: _, tag: _ } => false,
            },
            Err(_) => false,
        },
    }
}

/// Begins the removal of the node with this name in the directory of this path, with all below it, if it is
/// the wanted one. Returns None if there is no such node. A name that is not lawful finds nothing, and
/// neither does a path that leads to no directory.
///
/// Refusals: TooManyHolds or NoMemory, whichever is met first. After a refusal nothing is marked.
pub(crate) fn begin_at<N: Naming>(
    editor: &mut Editor<'_, N>,
    path: &[u8],
    name: &[u8],
    wanted: Wanted,
) -> Result<Option<Removing<N>>, Refusal>
    ensures begun { IfOk result (λ found.
        Begins editor.old editor.new path.now name.now wanted found) }
    ensures refused { IfErr result (λ refusal. HoldsRefusal refusal) }
    ensures same { OnErr result (Unchanged editor.old editor.new) }
{
    match entry(editor.state(), path, name) {
        Ok(key) => {
            if !fits(editor.state(), key, wanted) {
                return Ok(None);
            }
            Ok(Some(editor.begin_removal_of(key)?))
        }
        Err(_) => Ok(None),
    }
}

/// The link to this directory or, if none is given, whatever has the name.
fn link_wanted(dir: Option<Key>) -> Wanted
    ensures wanted { result ≡ link_wanted dir }
{
    match dir {
        Some(dir) => Wanted::LinkTo(dir),
        None => Wanted::Any,
    }
}

/// This directory or, if none is given, whatever has the name.
fn dir_wanted(dir: Option<Key>) -> Wanted
    ensures wanted { result ≡ dir_wanted dir }
{
    match dir {
        Some(dir) => Wanted::Directory(dir),
        None => Wanted::Any,
    }
}

/// An unplug that has begun. It must be passed to [`crate::Bus::finish`] once the tree is unlocked.
pub struct Unplugging<N: Naming> {
    /// The removal of the device's link, if there was one.
    pub link: Option<Removing<N>>,
    /// The removal of the device's directory, if there was one, or why that removal was refused.
    pub dir: Result<Option<Removing<N>>, Refusal>,
    // the plug whose texts are forgotten at the end
    pub(crate) plug: Option<u64>,
}

/// Begins the removal of a device's link, and then of its directory, each by its name. The device is the one
/// with this directory or, if none is given, whichever has the name. The caller passes the number of the
/// device's plug, if it knows that.
///
/// Refusals: TooManyHolds or NoMemory, for the link. After one of these nothing is marked.
pub(crate) fn begin_both<N: Naming>(
    editor: &mut Editor<'_, N>,
    name: &[u8],
    dir: Option<Key>,
    plug: Option<u64>,
) -> Result<Unplugging<N>, Refusal>
    ensures begun { IfOk result (λ leaving.
        BeginsBoth editor.old editor.new name.now dir leaving.link leaving.dir) }
    ensures refused { IfErr result (λ refusal. HoldsRefusal refusal) }
    ensures same { OnErr result (Unchanged editor.old editor.new) }
{
    let link = begin_at(editor, LINKS, name, link_wanted(dir))?;
    let dir = begin_at(editor, DEVICES, name, dir_wanted(dir));
    Ok(Unplugging { link, dir, plug })
}

/// Finishes both removals, while the tree is unlocked. Returns whether there was something to remove, or why
/// the directory was not removed.
///
/// Context: sleeps; takes the tree's lock, which the caller must not hold.
pub(crate) fn finish_both<N: Naming, R: Wait>(
    rt: &R,
    tree: &SharedTree<N>,
    leaving: Unplugging<N>,
) -> Result<bool, Refusal>
    ensures told { MatchResult leaving.dir
        (λ dir. result ≡ Ok (is_some leaving.link || is_some dir)) (λ refusal. result ≡ Err refusal) }
{
    let Unplugging { link, dir, plug: _ } = leaving;
    let was_linked = finish(rt, tree, link);
    let was_there = finish(rt, tree, dir?);
    Ok(was_linked || was_there)
}

/// Finishes a removal, if one has begun, while the tree is unlocked, and releases its receipts. Returns
/// whether one had begun.
pub(crate) fn finish<N: Naming, R: Wait>(
    rt: &R,
    tree: &SharedTree<N>,
    removing: Option<Removing<N>>,
) -> bool
    ensures told { result ≡ is_some removing }
{
    match removing {
        Some(removing) => {
            release_all(removing.finish(rt, tree));
            true
        }
        None => false,
    }
}

/// The number of the plug whose `value` is in the directory of the device with this name, if there is one.
pub(crate) fn plug_at(state: &State, name: &[u8]) -> Option<u64> {
    let dir = entry(state, DEVICES, name).ok()?;
    let value = state.find(dir, b"value").ok()?;
    match state.stat(value).ok()?.node {
        Node::File { mode: _, tag } => Some(meaning(tag)?.serial),
        Node::Dir | Node::Link { target: _ } => None,
    }
}
