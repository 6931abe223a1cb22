//! The canonical list of commands that makes a tree.

ghost use Rattle.std.specs.Prelude.{◌≡◌, ◌≤◌, ◌+◌, ◌++◌, length, vec_capacity, IfOk, IfErr, OnOk};
ghost use Rattle.kf_core.specs.Lawful.{Lawful};
ghost use Rattle.kf_tree.specs.Canonical.{IsPreOrder, IsCanonical, collected, create_of, doom_of, hide_of, is_doomed_top};
ghost use Rattle.kf_tree.specs.Subtrees.{owed_count};

use crate::growth::fit_room;
use crate::marks::is_hidden;
use crate::orders::{later_siblings, next_in_pre_order};
use kf_core::{Command, Key, Refusal};
use kf_table::Table;
use std::alloc::{AllocError, Global};

/// The keys of all linked records, each before all keys below it, siblings in byte order of names.
fn pre_order(alloc: Global, table: &Table, root: Key) -> Result<Vec<Key>, AllocError>
    requires lawful { Lawful table.now root }
    ensures ordered { IfOk result (λ keys. IsPreOrder table.now keys.items) }
{
    let mut keys = Vec::with_capacity(alloc, table.linked())?;
    let mut current = root;
    let mut later = later_siblings(table, root);
    'visit: while let Some((next, beside)) = next_in_pre_order(table, current, later) {
        keys.push(current)?;
        current = next;
        later = beside;
    }
    keys.push(current)?;
    Ok(keys)
}

fn push_create(table: &Table, key: Key, commands: &mut Vec<Command>) -> Result<(), AllocError>
    ensures pushed { OnOk result (commands.new.items ≡ commands.old.items ++ create_of table.now key) }
{
    if let Some(found) = table.record(key) {
        if let Some(parent) = found.parent {
            commands.push(Command::Create {
                key: found.key,
                parent,
                name: found.name.clone()?,
                node: found.node,
                live: found.marks.activated,
            })?;
        }
    }
    Ok(())
}

/// Whether the record of a key is doomed, and its directory is not.
fn is_doomed_top(table: &Table, key: Key) -> bool
    ensures known { result ≡ is_doomed_top table.now key }
{
    let Some(found) = table.record(key) else {
        return false;
    };
    let Some(parent) = found.parent else {
        return found.marks.doomed;
    };
    match table.record(parent) {
        Some(dir) => found.marks.doomed && !dir.marks.doomed,
        None => false,
    }
}

fn push_doom(table: &Table, key: Key, commands: &mut Vec<Command>) -> Result<(), AllocError>
    ensures pushed { OnOk result (commands.new.items ≡ commands.old.items ++ doom_of table.now key) }
{
    if is_doomed_top(table, key) {
        commands.push(Command::Doom { key })?;
    }
    Ok(())
}

fn push_hide(table: &Table, key: Key, commands: &mut Vec<Command>) -> Result<(), AllocError>
    ensures pushed { OnOk result (commands.new.items ≡ commands.old.items ++ hide_of table.now key) }
{
    if is_hidden(table, key) {
        commands.push(Command::Hide { key })?;
    }
    Ok(())
}

fn push_creates(table: &Table, keys: &[Key], commands: &mut Vec<Command>) -> Result<(), AllocError>
    ensures pushed { OnOk result
        (commands.new.items ≡ commands.old.items ++ collected (create_of table.now) keys.now) }
{
    for key in keys {
        push_create(table, *key, commands)?;
    }
    Ok(())
}

fn push_dooms(table: &Table, keys: &[Key], commands: &mut Vec<Command>) -> Result<(), AllocError>
    ensures pushed { OnOk result
        (commands.new.items ≡ commands.old.items ++ collected (doom_of table.now) keys.now) }
{
    for key in keys {
        push_doom(table, *key, commands)?;
    }
    Ok(())
}

fn push_hides(table: &Table, keys: &[Key], commands: &mut Vec<Command>) -> Result<(), AllocError>
    ensures pushed { OnOk result
        (commands.new.items ≡ commands.old.items ++ collected (hide_of table.now) keys.now) }
{
    for key in keys {
        push_hide(table, *key, commands)?;
    }
    Ok(())
}

/// The canonical list of commands of a tree that owes `later` more. If it owes none, no record is doomed or
/// hidden, and only creations are listed.
fn write_commands(
    alloc: Global,
    table: &Table,
    root: Key,
    later: usize,
) -> Result<Vec<Command>, AllocError>
    requires lawful { Lawful table.now root }
    requires counted { later ≡ owed_count table.now }
    ensures canonical { IfOk result (λ commands. IsCanonical table.now commands.items) }
{
    let keys = pre_order(alloc, table, root)?;
    let mut commands = Vec::with_capacity(alloc, table.linked() - 1)?;
    push_creates(table, &keys, &mut commands)?;
    if later == 0 {
        return Ok(commands);
    }
    push_dooms(table, &keys, &mut commands)?;
    push_hides(table, &keys, &mut commands)?;
    Ok(commands)
}

/// The canonical list of commands of a tree, with room only for the later ones that the tree owes.
pub(crate) fn canonical_commands(
    alloc: Global,
    table: &Table,
    root: Key,
    later: usize,
) -> Result<Vec<Command>, Refusal>
    requires lawful { Lawful table.now root }
    requires counted { later ≡ owed_count table.now }
    ensures canonical { IfOk result (λ commands. IsCanonical table.now commands.items) }
    ensures room { IfOk result (λ commands. length commands.items + later ≤ vec_capacity commands) }
    ensures refused { IfErr result (λ refusal. refusal ≡ Refusal.NoMemory) }
{
    let Ok(mut commands) = write_commands(alloc, table, root, later) else {
        return Err(Refusal::NoMemory);
    };
    fit_room(&mut commands, later)?;
    Ok(commands)
}
