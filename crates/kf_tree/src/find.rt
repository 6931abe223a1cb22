//! Finding one name, in the whole tree or only among its live records.

ghost use Rattle.std.specs.Prelude.{◌≡◌, Ok, Err, IfOk, MatchResult};
ghost use Rattle.std.specs.Option.{option_copied};
ghost use Rattle.kf_core.specs.declared.key.Key.{Key};
ghost use Rattle.kf_core.specs.Tree.{IsIn};
ghost use Rattle.kf_core.specs.Lawful.{Lawful};
ghost use Rattle.kf_tree.specs.Paths.{found};
ghost use Rattle.kf_tree.specs.Shown.{shown, shown_record};

use kf_core::{Key, Record, Refusal};
use kf_table::{Table, is_directory, is_live};

/// The record, unless only live records count and it is not live.
#[inline(always)]
fn only_shown(entry: Option<&Record>, live_only: bool) -> Option<&Record>
    ensures shown { option_copied result ≡ shown_record live_only (option_copied entry.entry) }
{
    match entry {
        Some(found) => {
            if live_only && !is_live(found) {
                None
            } else {
                Some(found)
            }
        }
        None => None,
    }
}

/// What a name in a directory leads to: a key and its record. The directory's own record is passed in; if
/// only live records count, it is live. The key is known before the record is read, so a walk by keys need
/// not wait for records.
#[inline(always)]
pub(crate) fn step<'t>(
    table: &'t Table,
    dir: Key,
    entry: &Record,
    name: &[u8],
    live_only: bool,
) -> Result<(Key, &'t Record), Refusal>
    requires lawful { (root : Key) × Lawful table.now root }
    requires inside { IsIn (shown live_only table.now) entry.now }
    requires keyed { entry.now.key ≡ dir }
    ensures found { MatchResult result
        (λ next. found (shown live_only table.now) dir name.now ≡ Ok next.0)
        (λ refusal. found (shown live_only table.now) dir name.now ≡ Err refusal) }
    ensures inside { IfOk result (λ next. IsIn (shown live_only table.now) next.1.now) }
    ensures keyed { IfOk result (λ next. next.1.now.key ≡ next.0) }
{
    if !is_directory(&entry.node) {
        return Err(Refusal::NotDir);
    }
    let Some((key, child)) = table.child_of(dir, name) else {
        return Err(Refusal::NoEntry);
    };
    match only_shown(Some(child), live_only) {
        Some(next) => Ok((key, next)),
        None => Err(Refusal::NoEntry),
    }
}

/// What a name in a directory leads to.
pub(crate) fn find_in(table: &Table, dir: Key, name: &[u8], live_only: bool) -> Result<Key, Refusal>
    requires lawful { (root : Key) × Lawful table.now root }
    ensures found { result ≡ found (shown live_only table.now) dir name.now }
{
    let Some(entry) = only_shown(table.record(dir), live_only) else {
        return Err(Refusal::NoEntry);
    };
    match step(table, dir, entry, name, live_only) {
        Ok((next, _)) => Ok(next),
        Err(refusal) => Err(refusal),
    }
}
