//! The text of a link, and the path of a node.

ghost use Rattle.std.specs.Prelude.{◌≡◌, ◌∷◌, ◌++◌, ◌⊎◌, ◌<◌, ◌≤◌, ◌+◌, ◌-◌, [], length, vec_len, vec_capacity, map, reverse, slice_index_or, Some, None, Ok, IsTrue, IfOk, IfErr, OnOk, if◌then◌else◌};
ghost use Rattle.std.specs.List.{join_with_byte};
ghost use Rattle.std.specs.Option.{option_and_then, option_to_list};
ghost use Rattle.kf_core.specs.declared.key.Key.{Key};
ghost use Rattle.kf_core.specs.Lawful.{Lawful};
ghost use Rattle.kf_core.specs.Tree.{is_linked, parent_of};
ghost use Rattle.kf_tree.specs.Links.{IsLinkText};
ghost use Rattle.kf_tree.specs.Paths.{walk};
ghost use Rattle.kf_tree.specs.Ways.{HasUps, IsPathOf, IsWayUp, name_at};

use kf_core::{Key, Refusal};
use kf_table::Table;
use std::alloc::{AllocError, Global};

/// The directory of a target, or the root if the target has none.
fn over_target(table: &Table, root: Key, target: Key) -> Key
    requires rooted { Lawful table.now root }
    requires linked { IsTrue (is_linked table.now target) }
    ensures over { (parent_of table.now target ≡ Some result)
        ⊎ ((parent_of table.now target ≡ None) × (result ≡ root)) }
    ensures linked { IsTrue (is_linked table.now result) }
{
    match table.parent(target) {
        Some(parent) => parent,
        None => root,
    }
}

/// Pushes a key, if there is one, and returns the key above it.
fn step_up(table: &Table, key: Option<Key>, way: &mut Vec<Key>) -> Result<Option<Key>, AllocError>
    ensures above { IfOk result (λ next. next ≡ option_and_then (parent_of table.now) key) }
    ensures pushed { OnOk result (way.new.items ≡ way.old.items ++ option_to_list key) }
{
    let Some(key) = key else {
        return Ok(None);
    };
    way.push(key)?;
    Ok(table.parent(key))
}

/// The keys from each of two directories up to the root. Both ways are climbed in one loop, so that a step on
/// one way does not wait for a step on the other.
fn ways_up(
    alloc: Global,
    table: &Table,
    root: Key,
    left: Key,
    right: Key,
) -> Result<(Vec<Key>, Vec<Key>), AllocError>
    requires rooted { Lawful table.now root }
    requires left { IsTrue (is_linked table.now left) }
    requires right { IsTrue (is_linked table.now right) }
    ensures left { IfOk result (λ ways. IsWayUp table.now root left ways.0.items) }
    ensures right { IfOk result (λ ways. IsWayUp table.now root right ways.1.items) }
{
    let (mut from, mut to) = (Vec::new(alloc), Vec::new(alloc));
    let (mut base, mut other) = (Some(left), Some(right));
    'up: while base.is_some() || other.is_some() {
        base = step_up(table, base, &mut from)?;
        other = step_up(table, other, &mut to)?;
    }
    Ok((from, to))
}

/// The key just above the one that is `depth` steps below the end of a way up.
fn key_above(way: &[Key], depth: usize) -> Key
    requires some { 0 < depth }
    requires within { depth < length way.now }
    ensures above { (other : Key) → result ≡ slice_index_or way.now (length way.now - depth) other }
{
    way[way.len() - depth]
}

/// Pushes `../`.
#[inline(always)]
fn push_up(text: &mut Vec<u8>)
    requires room { vec_len text.old + 3 ≤ vec_capacity text.old }
    ensures items { text.new.items ≡ text.old.items ++ 46 ∷ 46 ∷ 47 ∷ [] }
    ensures len { vec_len text.new ≡ vec_len text.old + 3 }
    ensures capacity { vec_capacity text.new ≡ vec_capacity text.old }
{
    text.push_reserved(b'.');
    text.push_reserved(b'.');
    text.push_reserved(b'/');
}

/// Pushes `../` for each step up from the directory to the first base over the target, and returns that base.
/// A second way up, from the target's directory, is climbed in the same loop, always the deeper of the two
/// first. Its keys are pushed to `keys`, from the target up to the key just below the base. Both ways are
/// looked up once, before the loop, and there is room for one `../` for each step of the whole way.
fn push_ups(
    table: &Table,
    root: Key,
    dir: Key,
    target: Key,
    text: &mut Vec<u8>,
    keys: &mut Vec<Key>,
) -> Result<Key, AllocError>
    requires rooted { Lawful table.now root }
    requires linked { IsTrue (is_linked table.now target) }
    requires there { IsTrue (is_linked table.now dir) }
    requires none { keys.old.items ≡ [] }
    ensures climbed { IfOk result
        (λ base. HasUps table.now root dir target base text.old.items text.new.items) }
    ensures lead { IfOk result
        (λ base. walk table.now base (reverse (map (name_at table.now) keys.new.items)) ≡ Ok target) }
{
    let over = over_target(table, root, target);
    let (from, to) = ways_up(*keys.allocator(), table, root, dir, over)?;
    if target != over {
        keys.push(target)?;
    }
    let (mut base, mut base_depth) = (dir, from.len() - 1);
    let (mut other, mut other_depth) = (over, to.len() - 1);
    text.reserve(3 * base_depth)?;
    'up: while base != other {
        if base_depth >= other_depth {
            push_up(text);
            base = key_above(&from, base_depth);
            base_depth -= 1;
        } else {
            keys.push(other)?;
            other = key_above(&to, other_depth);
            other_depth -= 1;
        }
    }
    Ok(base)
}

/// Pushes the name of a key's record, and a slash if another name follows.
fn push_name(table: &Table, key: Key, last: bool, text: &mut Vec<u8>) -> Result<(), AllocError>
    ensures pushed { OnOk result
        (text.new.items ≡ text.old.items ++ (name_at table.now key ++ (if last then [] else 47 ∷ []))) }
{
    if let Some(entry) = table.record(key) {
        text.extend_from_slice(entry.name.bytes())?;
    }
    if !last {
        text.push(b'/')?;
    }
    Ok(())
}

/// Pushes the names of the keys from the last to the first, joined by slashes.
fn push_names(table: &Table, mut keys: Vec<Key>, text: &mut Vec<u8>) -> Result<(), AllocError>
    ensures pushed { OnOk result
        (text.new.items ≡ text.old.items
        ++ join_with_byte 47 (reverse (map (name_at table.now) keys.items))) }
{
    'down: while let Some(key) = keys.pop() {
        push_name(table, key, keys.is_empty(), text)?;
    }
    Ok(())
}

fn write_text(
    alloc: Global,
    table: &Table,
    root: Key,
    dir: Key,
    target: Key,
) -> Result<Vec<u8>, AllocError>
    requires rooted { Lawful table.now root }
    requires linked { IsTrue (is_linked table.now target) }
    requires there { IsTrue (is_linked table.now dir) }
    ensures text { IfOk result (λ text. IsLinkText table.now root dir target text.items) }
{
    let mut text = Vec::new(alloc);
    let mut keys = Vec::new(alloc);
    let _base = push_ups(table, root, dir, target, &mut text, &mut keys)?;
    push_names(table, keys, &mut text)?;
    Ok(text)
}

/// The text of a link in this directory to this target.
pub(crate) fn link_text(
    alloc: Global,
    table: &Table,
    root: Key,
    dir: Key,
    target: Key,
) -> Result<Vec<u8>, Refusal>
    requires rooted { Lawful table.now root }
    requires linked { IsTrue (is_linked table.now target) }
    requires there { IsTrue (is_linked table.now dir) }
    ensures text { IfOk result (λ text. IsLinkText table.now root dir target text.items) }
    ensures refused { IfErr result (λ refusal. refusal ≡ Refusal.NoMemory) }
{
    match write_text(alloc, table, root, dir, target) {
        Ok(text) => Ok(text),
        Err(_) => Err(Refusal::NoMemory),
    }
}

fn write_path(alloc: Global, table: &Table, root: Key, key: Key) -> Result<Vec<u8>, AllocError>
    requires rooted { Lawful table.now root }
    requires linked { IsTrue (is_linked table.now key) }
    requires there { IsTrue (is_linked table.now root) }
    ensures path { IfOk result (λ path. IsPathOf table.now root key path.items) }
{
    let mut path = Vec::new(alloc);
    let mut keys = Vec::new(alloc);
    path.push(b'/')?;
    let _base = push_ups(table, root, root, key, &mut path, &mut keys)?;
    push_names(table, keys, &mut path)?;
    Ok(path)
}

/// The path of a linked key.
pub(crate) fn path_of(alloc: Global, table: &Table, root: Key, key: Key) -> Result<Vec<u8>, Refusal>
    requires rooted { Lawful table.now root }
    requires linked { IsTrue (is_linked table.now key) }
    requires there { IsTrue (is_linked table.now root) }
    ensures path { IfOk result (λ path. IsPathOf table.now root key path.items) }
    ensures refused { IfErr result (λ refusal. refusal ≡ Refusal.NoMemory) }
{
    match write_path(alloc, table, root, key) {
        Ok(path) => Ok(path),
        Err(_) => Err(Refusal::NoMemory),
    }
}
