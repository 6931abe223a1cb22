//! One name in one chunk: its key, the first name above it, and how it is added and removed.

ghost use Rattle.std.specs.Prelude.{◌≡◌, ◌<◌, ◌^◌, Some, length, IfErr, IfNone, IfSome, OnErr, OnOk};
ghost use Rattle.kf_index.specs.Chunks.{HasKey, LacksName, IsPut, WasRefused, IsTakenOut};
ghost use Rattle.kf_index.specs.Pairs.{IsRising, IsFirstAbove};

use crate::chunk::Chunk;
use crate::name::Name;
use crate::part::Part;
use crate::search::search;
use kf_core::{Key, Refusal};

/// The key that a chunk has under this name.
#[inline(always)]
pub(crate) fn key_in(chunk: &Chunk, name: &[u8]) -> Option<Key>
    requires rising { IsRising chunk.now }
    ensures found { IfSome result (λ key. HasKey chunk.now name.now key) }
    ensures absent { IfNone result (LacksName chunk.now name.now) }
{
    match search(chunk.all(), name) {
        Ok((_, key)) => Some(key),
        Err(_) => None,
    }
}

/// The place of the first name above a name.
pub(crate) fn first_above(entries: Part<'_>, name: &[u8]) -> usize
    requires rising { IsRising entries }
    ensures first { IsFirstAbove entries.entry (Some name.now) result }
{
    match search(entries, name) {
        Ok((at, _)) => at + 1,
        Err(at) => at,
    }
}

/// Puts an entry into a chunk. After a refusal all is as before.
pub(crate) fn insert_into(chunk: &mut Chunk, name: Name, key: Key) -> Result<(), Refusal>
    requires rising { IsRising chunk.old }
    requires few { length chunk.old < 2 ^ 32 }
    ensures put { OnOk result (IsPut chunk.old name key chunk.new) }
    ensures refused { IfErr result (WasRefused chunk.old name) }
    ensures unchanged { OnErr result (chunk.new ≡ chunk.old) }
{
    let Err(at) = search(chunk.all(), name.bytes()) else {
        return Err(Refusal::Exists);
    };
    let Ok(()) = chunk.insert(at, (name, key)) else {
        return Err(Refusal::NoMemory);
    };
    Ok(())
}

/// Takes the entry of this name out of a chunk, and returns its key.
pub(crate) fn remove_from(chunk: &mut Chunk, name: &[u8]) -> Option<Key>
    requires rising { IsRising chunk.old }
    ensures taken { IfSome result (λ key. IsTakenOut chunk.old name.now key chunk.new) }
    ensures absent { IfNone result (LacksName chunk.old name.now) }
    ensures unchanged { IfNone result (chunk.new ≡ chunk.old) }
{
    match search(chunk.all(), name) {
        Ok((at, _)) => {
            let (_, key) = chunk.remove(at);
            Some(key)
        }
        Err(_) => None,
    }
}
