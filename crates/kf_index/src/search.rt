//! The binary search for a name.

ghost use Rattle.std.specs.Prelude.{◌≡◌, IfOk, IfErr, slice_index_or};
ghost use Rattle.kf_index.specs.Pairs.{IsRising, IsPlaceOf, IsGapFor};
ghost use Rattle.kf_index.specs.Places.{no_entry};

use crate::compare::in_byte_order;
use crate::part::Part;
use kf_core::Key;
use std::cmp::Ordering;

/// The place of the name and its key, or, if the name is not there, the place that it would get.
#[inline(always)]
pub(crate) fn search(entries: Part<'_>, name: &[u8]) -> Result<(usize, Key), usize>
    requires rising { IsRising entries }
    ensures found { IfOk result (λ found. IsPlaceOf entries.entry name.now found.0) }
    ensures key { IfOk result (λ found. found.1 ≡ (slice_index_or entries.entry found.0 no_entry).1) }
    ensures absent { IfErr result (λ at. IsGapFor entries.entry name.now at) }
{
    // This is a loop of our own, without a closure, so that it keeps the name in registers and ends once it
    // meets the name.
    let mut low = 0;
    let mut high = entries.len();
    while low < high {
        let middle = low + (high - low) / 2;
        let (its_name, key) = entries.at(middle);
        match in_byte_order(its_name.bytes(), name) {
            Ordering::Less => low = middle + 1,
            Ordering::Equal => return Ok((middle, key)),
            Ordering::Greater => high = middle,
        }
    }
    Err(low)
}
