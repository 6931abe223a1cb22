//! The names of live children, one after another, in place in the index.

ghost use Rattle.std.specs.Prelude.{◌≡◌, ◌∷◌, [], IfOk, IfErr, IfSome, IfNone};
ghost use Rattle.std.specs.Option.{option_copied};
ghost use Rattle.kf_core.specs.declared.key.Key.{Key};
ghost use Rattle.kf_core.specs.Lawful.{Lawful};
ghost use Rattle.kf_tree.specs.Listing.{IsListing};

use kf_core::{Key, Refusal};
use kf_index::{Listed, Name};
use kf_table::Table;
use std::alloc::Global;
use std::marker::Model;

/// The names of a listing that are still to come. They stay in the tree, and each is searched for only when
/// it is asked for, so a listing allocates nothing. In contracts it is the list of these names.
#[derive(Drop)]
pub struct Names<'a> {
    table: &'a Table,
    /// The children that were not looked at yet.
    later: Listed<'a>,
    /// How many names may still come.
    limit: usize,
}

impl<'a> Model for Names<'a> {
    ghost use Rattle.std.specs.Prelude.{ℕ, List, take};
    ghost use Rattle.kf_tree.specs.Listing.{live_names};

    ghost Value = { List (List ℕ) };

    ghost view = { λ names. take names.limit (live_names names.table.now names.later) };
}

impl<'a> Names<'a> {
    /// The first names of live children above the bound, in byte order, up to the limit.
    pub(crate) fn new(table: &'a Table, dir: Key, after: Option<&[u8]>, limit: usize) -> Names<'a>
        requires lawful { (root : Key) × Lawful table.now root }
        ensures listed { IsListing table.now dir (option_copied after.entry) limit result }
    {
        Names {
            table,
            later: table.children_above(dir, after),
            limit,
        }
    }

    /// The first of the names, and the others, or None if no name is left.
    #[inline(always)]
    pub fn split_first(self) -> Option<(&'a Name, Names<'a>)>
        ensures split { IfSome result (λ split. self.entry ≡ split.0.now ∷ split.1) }
        ensures empty { IfNone result (self.entry ≡ []) }
    {
        let Names {
            table,
            mut later,
            limit,
        } = self;
        if limit == 0 {
            return None;
        }
        'children: while let Some(((name, key), rest)) = later.split_first() {
            later = rest;
            if table.is_live(key) {
                let others = Names {
                    table,
                    later,
                    limit: limit - 1,
                };
                return Some((name, others));
            }
        }
        None
    }
}

/// A copy of each name.
pub(crate) fn copy_names(alloc: Global, names: Names<'_>) -> Result<Vec<Name>, Refusal>
    ensures made { IfOk result (λ copies. copies.items ≡ names.entry) }
    ensures refused { IfErr result (λ refusal. refusal ≡ Refusal.NoMemory) }
{
    let mut copies = Vec::new(alloc);
    let mut later = names;
    'names: while let Some((name, rest)) = later.split_first() {
        let Ok(copy) = Name::clone(name) else {
            return Err(Refusal::NoMemory);
        };
        if copies.push(copy).is_err() {
            return Err(Refusal::NoMemory);
        }
        later = rest;
    }
    Ok(copies)
}
