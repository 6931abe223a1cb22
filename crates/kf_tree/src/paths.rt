//! Walks along paths, name by name, in one pass and without allocating.

ghost use Rattle.std.specs.Prelude.{◌≡◌, ◌∷◌, ◌<◌, false, position, IfSome, Some, None, Ok, Err, OnOk, length, MatchResult};
ghost use Rattle.std.specs.Option.{option_map};
ghost use Rattle.std.specs.List.{list_any, slice_split};
ghost use Rattle.kf_core.specs.declared.key.Key.{Key};
ghost use Rattle.kf_core.specs.Tree.{IsIn};
ghost use Rattle.kf_core.specs.Lawful.{Lawful};
ghost use Rattle.kf_core.specs.Paths.{is_slash, is_empty, later_parts};
ghost use Rattle.kf_tree.specs.Paths.{walk, walked, walked_parent, front, final};
ghost use Rattle.kf_tree.specs.Shown.{shown};

use crate::find::step;
use kf_core::{Key, Record, Refusal};
use kf_table::Table;

fn find_slash(text: &[u8]) -> Option<usize>
    ensures first { result ≡ position is_slash text.now }
{
    text.iter().position(|byte| *byte == b'/')
}

/// The first part of the text, and what follows the slash after it, if there is one.
fn first_part(text: &[u8]) -> (&[u8], Option<&[u8]>)
    ensures parts { slice_split is_slash text.now ≡ result.0.now
        ∷ later_parts (option_map (λ rest. rest.now) result.1) }
    ensures shorter { IfSome result.1 (λ rest. length rest.now < length text.now) }
{
    match find_slash(text) {
        Some(at) => (&text[..at], Some(&text[at + 1..])),
        None => (text, None),
    }
}

/// Whether a part is empty. This is asked only if a path leads nowhere.
fn has_empty_part(parts: &[u8]) -> bool
    ensures known { result ≡ list_any is_empty (slice_split is_slash parts.now) }
{
    let mut rest = Some(parts);
    while let Some(text) = rest {
        let (name, more) = first_part(text);
        if name.is_empty() {
            return true;
        }
        rest = more;
    }
    false
}

/// What the parts lead to, one after another, from a directory on. The directory's record is passed in. No
/// node has an empty name, so the parts lead nowhere if one of them is empty.
fn walk_parts(
    table: &Table,
    start: Key,
    top: &Record,
    parts: &[u8],
    live_only: bool,
) -> Result<Key, Refusal>
    requires lawful { (root : Key) × Lawful table.now root }
    requires inside { IsIn (shown live_only table.now) top.now }
    requires keyed { top.now.key ≡ start }
    ensures walked { result
        ≡ walk (shown live_only table.now) start (slice_split is_slash parts.now) }
    ensures named { OnOk result (list_any is_empty (slice_split is_slash parts.now) ≡ false) }
{
    let (mut dir, mut entry) = (start, top);
    let mut rest = Some(parts);
    while let Some(text) = rest {
        let (name, more) = first_part(text);
        match step(table, dir, entry, name, live_only) {
            Ok((key, next)) => {
                dir = key;
                entry = next;
            }
            Err(refusal) => return Err(refusal),
        }
        rest = more;
    }
    Ok(dir)
}

/// The node that a path names.
pub(crate) fn walk(table: &Table, root: Key, path: &[u8], live_only: bool) -> Result<Key, Refusal>
    requires rooted { Lawful table.now root }
    ensures walked { result ≡ walked (shown live_only table.now) root path.now }
{
    let [b'/', parts @ ..] = path else {
        return Err(Refusal::Invalid);
    };
    if parts.is_empty() {
        return Ok(root);
    }
    let Some(top) = table.record(root) else {
        unreachable!();
    };
    match walk_parts(table, root, top, parts, live_only) {
        Ok(key) => Ok(key),
        Err(_) if has_empty_part(parts) => Err(Refusal::Invalid),
        Err(refusal) => Err(refusal),
    }
}

/// Whether a part other than the last is empty.
fn has_empty_front(parts: &[u8]) -> bool
    ensures known { result ≡ list_any is_empty (front (slice_split is_slash parts.now)) }
{
    let mut text = parts;
    while let (name, Some(rest)) = first_part(text) {
        if name.is_empty() {
            return true;
        }
        text = rest;
    }
    false
}

/// What all parts except the last lead to, and the last part.
fn walk_front<'a>(
    table: &Table,
    start: Key,
    top: &Record,
    parts: &'a [u8],
) -> Result<(Key, &'a [u8]), Refusal>
    requires lawful { (root : Key) × Lawful table.now root }
    requires inside { IsIn table.now top.now }
    requires keyed { top.now.key ≡ start }
    ensures walked { MatchResult result
        (λ found. (walk table.now start (front (slice_split is_slash parts.now)) ≡ Ok found.0)
        × (final (slice_split is_slash parts.now) ≡ found.1.now))
        (λ refusal. walk table.now start (front (slice_split is_slash parts.now)) ≡ Err refusal) }
    ensures named { OnOk result (list_any is_empty (front (slice_split is_slash parts.now)) ≡ false) }
{
    let (mut dir, mut entry) = (start, top);
    let mut text = parts;
    loop {
        let (name, more) = first_part(text);
        let Some(rest) = more else {
            return Ok((dir, name));
        };
        match step(table, dir, entry, name, false) {
            Ok((key, next)) => {
                dir = key;
                entry = next;
            }
            Err(refusal) => return Err(refusal),
        }
        text = rest;
    }
}

/// The node that all names of a path except the last lead to, and the last name.
pub(crate) fn walk_parent<'a>(
    table: &Table,
    root: Key,
    path: &'a [u8],
) -> Result<(Key, &'a [u8]), Refusal>
    requires rooted { Lawful table.now root }
    ensures walked { MatchResult result
        (λ found. walked_parent table.now root path.now ≡ Ok (found.0, found.1.now))
        (λ refusal. walked_parent table.now root path.now ≡ Err refusal) }
{
    let [b'/', parts @ ..] = path else {
        return Err(Refusal::Invalid);
    };
    if parts.is_empty() {
        return Err(Refusal::Invalid);
    }
    let Some(top) = table.record(root) else {
        unreachable!();
    };
    match walk_front(table, root, top, parts) {
        Ok(found) => Ok(found),
        Err(_) if has_empty_front(parts) => Err(Refusal::Invalid),
        Err(refusal) => Err(refusal),
    }
}
