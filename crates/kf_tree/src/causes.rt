//! Why a call is refused, before anything is allocated or changed.

ghost use Rattle.std.specs.Prelude.{◌≡◌, Option, None, Some, Result, Ok, Err, MatchResult, true, false, not};
ghost use Rattle.kf_core.specs.declared.key.Key.{Key};
ghost use Rattle.kf_core.specs.Lawful.{Lawful};
ghost use Rattle.kf_core.specs.Tree.{is_linked, parent_of};
ghost use Rattle.kf_tree.specs.Causes.{target_fault, target_of, link_target, create_fault, create_cause, linked_cause, unlink_cause, doom_cause, hide_cause, rename_cause, list_cause, text_cause};
ghost use Rattle.kf_table.specs.Children.{is_there_already};

use kf_core::{Key, Node, Record, Refusal};
use kf_index::name_fault;
use kf_table::{Table, is_directory, is_in, is_live};

/// The key that a link leads to.
fn target_of(node: &Node) -> Option<Key>
    ensures known { result ≡ target_of node.now }
{
    match node {
        Node::Link { target } => Some(*target),
        _ => None,
    }
}

/// What is wrong with a link's target: it is not linked, or is the root.
fn target_fault(table: &Table, root: Key, target: Option<Key>) -> Option<Refusal>
    ensures first { result ≡ target_fault table.now root target }
{
    let Some(target) = target else {
        return None;
    };
    if table.record(target).is_none() {
        return Some(Refusal::NoEntry);
    }
    if target == root {
        return Some(Refusal::Invalid);
    }
    None
}

/// What is wrong with a new record, whichever key it would take.
pub(crate) fn create_fault(
    table: &Table,
    root: Key,
    parent: Key,
    name: &[u8],
    node: &Node,
) -> Option<Refusal>
    requires lawful { (root : Key) × Lawful table.now root }
    ensures first { result ≡ create_fault table.now root parent name.now node.now }
{
    let Some(dir) = table.record(parent) else {
        return Some(Refusal::NoEntry);
    };
    if let Some(fault) = name_fault(name) {
        return Some(fault);
    }
    if !is_directory(&dir.node) {
        return Some(Refusal::NotDir);
    }
    if dir.marks.doomed {
        return Some(Refusal::NoEntry);
    }
    if let Some(fault) = target_fault(table, root, target_of(node)) {
        return Some(fault);
    }
    if table.child(parent, name).is_some() {
        return Some(Refusal::Exists);
    }
    None
}

/// The key that a new record takes, or why there is none.
pub(crate) fn check_create(
    table: &Table,
    root: Key,
    parent: Key,
    name: &[u8],
    node: &Node,
    next: Option<Key>,
) -> Result<Key, Refusal>
    requires lawful { (root : Key) × Lawful table.now root }
    ensures checked { MatchResult result
        (λ key. (create_fault table.now root parent name.now node.now ≡ None) × (next ≡ Some key))
        (λ cause. create_cause table.now root parent name.now node.now next ≡ Some cause) }
{
    if let Some(fault) = create_fault(table, root, parent, name, node) {
        return Err(fault);
    }
    match next {
        Some(key) => Ok(key),
        None => Err(Refusal::NoSpace),
    }
}

/// Whether the key is linked, or why it may not be unlinked.
pub(crate) fn check_unlink(table: &Table, key: Key) -> Result<bool, Refusal>
    requires lawful { (root : Key) × Lawful table.now root }
    ensures checked { MatchResult result
        (λ linked. (is_linked table.now key ≡ linked) × (linked ≡ true → unlink_cause table.now key ≡ None))
        (λ cause. (is_linked table.now key ≡ true) × (unlink_cause table.now key ≡ Some cause)) }
{
    let Some(entry) = table.record(key) else {
        return Ok(false);
    };
    if !entry.marks.doomed {
        return Err(Refusal::Invalid);
    }
    if table.has_child(key) {
        return Err(Refusal::Busy);
    }
    Ok(true)
}

/// Refuses a key that is not linked.
pub(crate) fn check_linked(table: &Table, key: Key) -> Result<(), Refusal>
    ensures checked { MatchResult result (λ _. linked_cause table.now key ≡ None)
        (λ cause. linked_cause table.now key ≡ Some cause) }
{
    if table.record(key).is_none() {
        return Err(Refusal::NoEntry);
    }
    Ok(())
}

/// Why a key may not be doomed.
pub(crate) fn check_doom(table: &Table, root: Key, key: Key) -> Result<(), Refusal>
    ensures checked { MatchResult result (λ _. doom_cause table.now root key ≡ None)
        (λ cause. doom_cause table.now root key ≡ Some cause) }
{
    if table.record(key).is_none() {
        return Err(Refusal::NoEntry);
    }
    if key == root {
        return Err(Refusal::Invalid);
    }
    Ok(())
}

/// Why a key may not be hidden.
pub(crate) fn check_hide(table: &Table, key: Key) -> Result<(), Refusal>
    ensures checked { MatchResult result (λ _. hide_cause table.now key ≡ None)
        (λ cause. hide_cause table.now key ≡ Some cause) }
{
    let Some(entry) = table.record(key) else {
        return Err(Refusal::NoEntry);
    };
    if is_directory(&entry.node) {
        return Err(Refusal::IsDir);
    }
    if target_of(&entry.node).is_some() {
        return Err(Refusal::Invalid);
    }
    if entry.marks.doomed {
        return Err(Refusal::NoEntry);
    }
    if entry.hidden {
        return Err(Refusal::Busy);
    }
    Ok(())
}

/// Whether a record is to move, or why it may not. A record that is there already is not to move.
pub(crate) fn check_rename(
    table: &Table,
    root: Key,
    key: Key,
    dir: Key,
    name: &[u8],
) -> Result<bool, Refusal>
    requires lawful { (root : Key) × Lawful table.now root }
    ensures checked { MatchResult result
        (λ moves. (rename_cause table.now root key dir name.now ≡ None)
        × (moves ≡ not (is_there_already table.now key dir name.now)))
        (λ cause. rename_cause table.now root key dir name.now ≡ Some cause) }
{
    if key == root {
        return Err(Refusal::Invalid);
    }
    let (Some(mover), Some(target)) = (table.record(key), table.record(dir)) else {
        return Err(Refusal::NoEntry);
    };
    if let Some(fault) = name_fault(name) {
        return Err(fault);
    }
    if !is_directory(&target.node) {
        return Err(Refusal::NotDir);
    }
    if !is_live(mover) || !is_live(target) {
        return Err(Refusal::NoEntry);
    }
    if is_in(mover, dir) && mover.name.bytes() == name {
        return Ok(false);
    }
    if table.is_below(key, dir) {
        return Err(Refusal::Invalid);
    }
    if table.child(dir, name).is_some() {
        return Err(Refusal::Exists);
    }
    Ok(true)
}

/// Why a directory may not be listed.
pub(crate) fn check_list(table: &Table, dir: Key) -> Result<(), Refusal>
    ensures checked { MatchResult result (λ _. list_cause table.now dir ≡ None)
        (λ cause. list_cause table.now dir ≡ Some cause) }
{
    let Some(entry) = table.record(dir) else {
        return Err(Refusal::NoEntry);
    };
    if !is_directory(&entry.node) {
        return Err(Refusal::NotDir);
    }
    Ok(())
}

/// The directory of a link, and the target of the link, or why the key has no text.
pub(crate) fn check_text(table: &Table, key: Key) -> Result<(Key, Key), Refusal>
    requires lawful { (root : Key) × Lawful table.now root }
    ensures checked { MatchResult result
        (λ found. (text_cause table.now key ≡ None) × (parent_of table.now key ≡ Some found.0)
        × (link_target table.now key ≡ Some found.1))
        (λ cause. text_cause table.now key ≡ Some cause) }
{
    let Some(entry) = table.record(key) else {
        return Err(Refusal::NoEntry);
    };
    let Some(target) = target_of(&entry.node) else {
        return Err(Refusal::Invalid);
    };
    match entry.parent {
        Some(dir) if table.record(target).is_some() => Ok((dir, target)),
        _ => Err(Refusal::NoEntry),
    }
}
