//! The keys of a subtree in post-order.

ghost use Rattle.std.specs.Prelude.{◌≡◌, IsTrue, IfOk, IfErr};
ghost use Rattle.kf_core.specs.declared.key.Key.{Key};
ghost use Rattle.kf_core.specs.Tree.{is_linked};
ghost use Rattle.kf_core.specs.Lawful.{Lawful};
ghost use Rattle.kf_core.specs.PostOrder.{IsPostOrder};
ghost use Rattle.kf_tree.specs.Ends.{EndsWith};

use crate::orders::{first_below, next_in_post_order};
use kf_core::{Key, Refusal};
use kf_index::Listed;
use kf_table::Table;
use std::alloc::{AllocError, Global};

fn keys_below(alloc: Global, table: &Table, top: Key) -> Result<Vec<Key>, AllocError>
    requires lawful { (root : Key) × Lawful table.now root }
    requires linked { IsTrue (is_linked table.now top) }
    ensures ordered { IfOk result (λ keys. IsPostOrder table.now top keys.items) }
    ensures last { IfOk result (λ keys. EndsWith keys.items top) }
{
    let mut keys = Vec::new(alloc);
    let (mut current, mut later) = first_below(table, top, Listed::none());
    'visit: while let Some((next, beside)) = next_in_post_order(table, top, current, later) {
        keys.push(current)?;
        current = next;
        later = beside;
    }
    keys.push(current)?;
    Ok(keys)
}

/// The keys of the subtree of a linked key, each after all keys below it, siblings in byte order of names.
pub(crate) fn post_order(alloc: Global, table: &Table, top: Key) -> Result<Vec<Key>, Refusal>
    requires lawful { (root : Key) × Lawful table.now root }
    requires linked { IsTrue (is_linked table.now top) }
    ensures ordered { IfOk result (λ keys. IsPostOrder table.now top keys.items) }
    ensures last { IfOk result (λ keys. EndsWith keys.items top) }
    ensures refused { IfErr result (λ refusal. refusal ≡ Refusal.NoMemory) }
{
    match keys_below(alloc, table, top) {
        Ok(keys) => Ok(keys),
        Err(_) => Err(Refusal::NoMemory),
    }
}
