//! Look-ups in the tree behind a handle. They are made in place, and change nothing.
ghost use Rattle.std.specs.Prelude.{◌≡◌};
ghost use Rattle.kf_handles.specs.Calls.{is_nothing, key_in};
ghost use Rattle.kf_handles.specs.LookUps.{CommandsIn, TellsCommands, find_behind, parent_behind, root_behind, stat_behind, walk_behind, TellsKey, TellsStat};

use crate::errors::error_of;
use crate::handle::KtHandle;
use crate::object::Object;
use crate::replies::{KtCommands, KtKey, KtStat, key_of, told_key, told_of};
use kf_core::{Key, Refusal};
use kf_tree::Stat;

/// Whether nothing is behind a handle.
pub fn is_nothing(handle: &mut KtHandle) -> bool
    ensures same { handle.new.place ≡ handle.old.place }
    ensures known { result ≡ is_nothing handle.old.place }
{
    handle.place_mut().is_empty()
}

/// Writes the key that was found and returns 0, or returns the error number of the refusal.
fn tell_key(found: Result<Key, Refusal>, out: &mut KtKey) -> i32
    ensures told { TellsKey found result out.old out.new }
{
    match found {
        Ok(key) => {
            *out = told_key(key);
            0
        }
        Err(refusal) => error_of(refusal),
    }
}

/// The key of the root, if the object is a tree.
fn root_in(object: &Object) -> Result<Key, Refusal>
    ensures told { result ≡ root_behind object.now }
{
    match object {
        Object::Tree(tree) => Ok(tree.state().root()),
        _ => Err(Refusal::Invalid),
    }
}

/// Writes the key of the root.
pub fn root(handle: &mut KtHandle, out: &mut KtKey) -> i32
    ensures same { handle.new.place ≡ handle.old.place }
    ensures told { TellsKey (root_behind handle.old.place.object) result out.old out.new }
{
    tell_key(root_in(&handle.place_mut().object), out)
}

/// How many commands a tree stores, and how many it would store after a compaction, at most.
fn commands_in(object: &Object) -> Result<KtCommands, Refusal>
    ensures told { CommandsIn object.now result }
{
    match object {
        Object::Tree(tree) => Ok(KtCommands {
            stored: tree.state().stored() as u64,
            compacted: tree.state().compacted() as u64,
        }),
        _ => Err(Refusal::Invalid),
    }
}

/// Writes how many commands a tree stores, and how many it would store after a compaction, at most. It takes
/// constant time.
pub fn commands(handle: &mut KtHandle, out: &mut KtCommands) -> i32
    ensures same { handle.new.place ≡ handle.old.place }
    ensures told { TellsCommands handle.old.place.object result out.old out.new }
{
    match commands_in(&handle.place_mut().object) {
        Ok(told) => {
            *out = told;
            0
        }
        Err(refusal) => error_of(refusal),
    }
}

/// The key of the child of this name, live or not.
fn find_in(object: &Object, dir: Key, name: &[u8]) -> Result<Key, Refusal>
    ensures told { result ≡ find_behind object.now dir name.now }
{
    match object {
        Object::Tree(tree) => tree.state().find(dir, name),
        _ => Err(Refusal::Invalid),
    }
}

/// Finds the child of this name, live or not, and writes its key.
pub fn find(handle: &mut KtHandle, dir: KtKey, name: &[u8], out: &mut KtKey) -> i32
    ensures same { handle.new.place ≡ handle.old.place }
    ensures told { TellsKey (find_behind handle.old.place.object
        (key_in dir) name.now) result out.old out.new }
{
    tell_key(find_in(&handle.place_mut().object, key_of(dir), name), out)
}

/// The key of the node that a path names, live or not.
fn walk_in(object: &Object, path: &[u8]) -> Result<Key, Refusal>
    ensures told { result ≡ walk_behind object.now path.now }
{
    match object {
        Object::Tree(tree) => tree.state().walk(path),
        _ => Err(Refusal::Invalid),
    }
}

/// Finds the node that a path names, live or not, and writes its key.
pub fn walk(handle: &mut KtHandle, path: &[u8], out: &mut KtKey) -> i32
    ensures same { handle.new.place ≡ handle.old.place }
    ensures told { TellsKey (walk_behind handle.old.place.object path.now) result out.old out.new }
{
    tell_key(walk_in(&handle.place_mut().object, path), out)
}

/// The key of the directory of a node.
fn parent_in(object: &Object, key: Key) -> Result<Key, Refusal>
    ensures told { result ≡ parent_behind object.now key }
{
    match object {
        Object::Tree(tree) => match tree.state().parent_of(key) {
            Ok(Some(dir)) => Ok(dir),
            Ok(None) => Err(Refusal::Invalid),
            Err(refusal) => Err(refusal),
        },
        _ => Err(Refusal::Invalid),
    }
}

/// Writes the key of the directory of a node.
pub fn parent(handle: &mut KtHandle, key: KtKey, out: &mut KtKey) -> i32
    ensures same { handle.new.place ≡ handle.old.place }
    ensures told { TellsKey (parent_behind handle.old.place.object
        (key_in key)) result out.old out.new }
{
    tell_key(parent_in(&handle.place_mut().object, key_of(key)), out)
}

/// The stat of a node, if the object is a tree that has the node.
pub fn stat_in(object: &Object, key: Key) -> Result<Stat, Refusal>
    ensures told { result ≡ stat_behind object.now key }
{
    match object {
        Object::Tree(tree) => tree.state().stat(key),
        _ => Err(Refusal::Invalid),
    }
}

/// Writes the stat and returns 0, or returns the error number of the refusal.
fn tell_stat(told: Result<Stat, Refusal>, out: &mut KtStat) -> i32
    ensures told { TellsStat told result out.old out.new }
{
    match told {
        Ok(stat) => {
            *out = told_of(stat);
            0
        }
        Err(refusal) => error_of(refusal),
    }
}

/// Writes the stat of a node.
pub fn tell(handle: &mut KtHandle, key: KtKey, out: &mut KtStat) -> i32
    ensures same { handle.new.place ≡ handle.old.place }
    ensures told { TellsStat (stat_behind handle.old.place.object
        (key_in key)) result out.old out.new }
{
    tell_stat(stat_in(&handle.place_mut().object, key_of(key)), out)
}
