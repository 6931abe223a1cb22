//! Tests how much memory an index has after each of many changes. No clause says that this grows and shrinks
//! with the length of the index if requests for memory succeed.

use crate::answers::all_right;
use kf_core::{Key, Refusal};
use kf_index::{Index, Name};
use std::alloc::Global;

const NAMES: u32 = 1000;

/// The most chunks that such an index has: a full chunk is split into two of 254 entries.
const CHUNKS: usize = 3;

const DIGITS: [u8; 16] = *b"0123456789abcdef";

fn key(slot: u32) -> Key {
    Key {
        slot,
        generation: 1,
    }
}

/// The name of a number below 1,000. It may stand anywhere among the names of the numbers before it.
fn name_of(number: u32) -> [u8; 3] {
    let place = number % NAMES * 617 % NAMES;
    [
        DIGITS[(place / 256 % 16) as usize],
        DIGITS[(place / 16 % 16) as usize],
        DIGITS[(place % 16) as usize],
    ]
}

/// Adds the name of a number, in the slot of that number.
fn insert(alloc: Global, index: &mut Index, number: u32) -> Result<(), Refusal> {
    if index.len() >= NAMES as usize {
        return Err(Refusal::NoSpace);
    }
    index.insert(Name::new(alloc, &name_of(number))?, key(number))
}

/// Whether there is room for at most four times the entries, and for three more in each chunk.
fn is_fitting(index: &Index) -> bool {
    let len = index.len();
    len <= NAMES as usize && index.room() <= 4 * len + 3 * CHUNKS
}

/// Adds all names, and removes all except the first. Returns the number of the first name after which the
/// memory does not fit the entries, if there is one.
fn first_wrong(alloc: Global) -> Result<Option<usize>, Refusal> {
    let mut index = Index::new(alloc);
    for number in 0..NAMES {
        insert(alloc, &mut index, number)?;
        if !is_fitting(&index) {
            return Ok(Some(number as usize));
        }
    }
    for number in 1..NAMES {
        if index.remove(&name_of(number)) != Some(key(number)) || !is_fitting(&index) {
            return Ok(Some(number as usize));
        }
    }
    Ok(None)
}

#[test]
fn keeps_memory_for_what_is_there(rt: HostRuntime) {
    all_right(&rt, first_wrong(rt.alloc()));
}
