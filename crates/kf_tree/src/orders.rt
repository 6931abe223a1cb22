//! Walks in post-order or pre-order, from node to node and without a stack. A caller keeps the later siblings
//! of its node as it goes on, so that an index is searched only on the way up to a directory.

ghost use Rattle.std.specs.Prelude.{◌≡◌, ◌≢◌, None, IsTrue, IfSome, IfNone};
ghost use Rattle.kf_core.specs.declared.key.Key.{Key};
ghost use Rattle.kf_core.specs.Tree.{is_linked, in_subtree};
ghost use Rattle.kf_core.specs.Lawful.{Lawful};
ghost use Rattle.kf_table.specs.Next.{NoneAbove};
ghost use Rattle.kf_tree.specs.Orders.{AreLater, IsFirstBelow, IsNextInPostOrder, IsNextInPreOrder, IsLastInPreOrder};

use kf_core::Key;
use kf_index::Listed;
use kf_table::Table;

/// The siblings that come after a node, found by a search in the index of its directory.
pub(crate) fn later_siblings(table: &Table, key: Key) -> Listed<'_>
    requires lawful { (root : Key) × Lawful table.now root }
    ensures later { AreLater table.now key result }
{
    let Some(entry) = table.record(key) else {
        return Listed::none();
    };
    let Some(dir) = entry.parent else {
        return Listed::none();
    };
    table.children_above(dir, Some(entry.name.bytes()))
}

/// The same for a node of a walk that ends at its top. The siblings of the top are not asked for.
pub(crate) fn later_below(table: &Table, top: Key, key: Key) -> Listed<'_>
    requires lawful { (root : Key) × Lawful table.now root }
    ensures later { key ≢ top → AreLater table.now key result }
{
    if key == top {
        return Listed::none();
    }
    later_siblings(table, key)
}

/// The last node on the way down by first children (`kernfs_leftmost_descendant`), with its later siblings.
pub(crate) fn first_below<'t>(table: &'t Table, top: Key, later: Listed<'t>) -> (Key, Listed<'t>)
    requires lawful { (root : Key) × Lawful table.now root }
    requires linked { IsTrue (is_linked table.now top) }
    ensures first { IsFirstBelow table.now top result.0 }
    ensures below { result.0 ≢ top → AreLater table.now result.0 result.1 }
    ensures later { AreLater table.now top later.entry → AreLater table.now result.0 result.1 }
{
    let mut current = top;
    let mut beside = later;
    'down: while let Some(((_, child), rest)) = table.children(current).split_first() {
        current = child;
        beside = rest;
    }
    (current, beside)
}

/// The node after this one in the post-order of a subtree, with its later siblings, or None at the top of the
/// subtree (`kernfs_next_descendant_post`).
pub(crate) fn next_in_post_order<'t>(
    table: &'t Table,
    top: Key,
    key: Key,
    later: Listed<'t>,
) -> Option<(Key, Listed<'t>)>
    requires lawful { (root : Key) × Lawful table.now root }
    requires linked { IsTrue (is_linked table.now key) }
    requires below { IsTrue (in_subtree table.now top key) }
    requires later { key ≢ top → AreLater table.now key later }
    ensures next { IfSome result (λ next. IsNextInPostOrder table.now top key next.0) }
    ensures later { IfSome result (λ next. next.0 ≢ top → AreLater table.now next.0 next.1) }
    ensures inside { IfSome result (λ _. key ≢ top) }
    ensures end { IfNone result (key ≡ top) }
{
    if key == top {
        return None;
    }
    let entry = table.record(key)?;
    let dir = entry.parent?;
    match later.split_first() {
        Some(((_, sibling), rest)) => Some(first_below(table, sibling, rest)),
        None => Some((dir, later_below(table, top, dir))),
    }
}

/// The next sibling of a node, or of the nearest node above it that has one, with its later siblings.
fn next_aside(table: &Table, key: Key) -> Option<(Key, Listed<'_>)>
    requires lawful { (root : Key) × Lawful table.now root }
    requires linked { IsTrue (is_linked table.now key) }
    requires leaf { NoneAbove table.now key None }
    ensures next { IfSome result (λ next. IsNextInPreOrder table.now key next.0) }
    ensures later { IfSome result (λ next. AreLater table.now next.0 next.1) }
    ensures end { IfNone result (IsLastInPreOrder table.now key) }
{
    let mut current = key;
    'up: while let Some(entry) = table.record(current) {
        let dir = entry.parent?;
        let beside = table.children_above(dir, Some(entry.name.bytes()));
        if let Some(((_, sibling), rest)) = beside.split_first() {
            return Some((sibling, rest));
        }
        current = dir;
    }
    None
}

/// The node after a leaf in pre-order, with its later siblings. If the leaf has a next sibling, that
/// sibling is the result, and no index is searched.
fn next_of_leaf<'t>(table: &'t Table, key: Key, later: Listed<'t>) -> Option<(Key, Listed<'t>)>
    requires lawful { (root : Key) × Lawful table.now root }
    requires linked { IsTrue (is_linked table.now key) }
    requires leaf { NoneAbove table.now key None }
    requires later { AreLater table.now key later }
    ensures next { IfSome result (λ next. IsNextInPreOrder table.now key next.0) }
    ensures later { IfSome result (λ next. AreLater table.now next.0 next.1) }
    ensures end { IfNone result (IsLastInPreOrder table.now key) }
{
    let Some(((_, sibling), rest)) = later.split_first() else {
        return next_aside(table, key);
    };
    let Some(entry) = table.record(key) else {
        return next_aside(table, key);
    };
    match entry.parent {
        Some(_) => Some((sibling, rest)),
        None => next_aside(table, key),
    }
}

/// The node after this one in the pre-order of the tree, with its later siblings, or None if this is the
/// last.
pub(crate) fn next_in_pre_order<'t>(
    table: &'t Table,
    key: Key,
    later: Listed<'t>,
) -> Option<(Key, Listed<'t>)>
    requires lawful { (root : Key) × Lawful table.now root }
    requires linked { IsTrue (is_linked table.now key) }
    requires later { AreLater table.now key later }
    ensures next { IfSome result (λ next. IsNextInPreOrder table.now key next.0) }
    ensures later { IfSome result (λ next. AreLater table.now next.0 next.1) }
    ensures end { IfNone result (IsLastInPreOrder table.now key) }
{
    match table.children(key).split_first() {
        Some(((_, child), rest)) => Some((child, rest)),
        None => next_of_leaf(table, key, later),
    }
}
