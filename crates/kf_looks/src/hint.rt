//! Hints, which say in which line a name may be. A hint is never trusted: the line itself is compared with
//! the name.
ghost use Rattle.std.specs.Prelude.{◌≡◌, ◌+◌, ◌*◌, ◌<◌, ◌≤◌, ⊤};
ghost use Rattle.kf_looks.specs.Lines.{words_for};
ghost use Rattle.kf_looks.specs.Reading.{IsSameSeat, Follows};

use crate::lookup_table::LookupTable;
use crate::short_name::ShortName;
use crate::table::LookSeat;

/// How many consecutive hints may belong to a name.
pub(crate) const WAYS: usize = 16;

const HALF: u64 = 4294967296;

const BY_NAME: u64 = 11400714819323198485;

const BY_WORD: u64 = 7046029254386353131;

/// The place of a name's hints: the number of their first word, which is after all lines, and the tag that
/// marks them. A hint is a tag in the upper half of a word and a line in the lower half; 0 is no hint.
#[derive(Clone, Copy)]
pub(crate) struct Place {
    pub(crate) first: usize,
    pub(crate) tag: u64,
}

/// A hash of a name, from which its place is computed. It does not depend on the directory.
#[inline(always)]
fn name_hash(name: &ShortName) -> u64 {
    let last = name.third.wrapping_mul(BY_WORD).wrapping_add(name.second);
    let all = last
        .wrapping_mul(BY_WORD)
        .wrapping_add(name.first)
        .wrapping_mul(BY_WORD);
    all ^ (all / HALF)
}

impl LookupTable {
    /// The place of a name's hints, computed from the name and the slot of its directory. For that slot, a
    /// walk passes the line that the directory's own hint named. So the processor can load the next hint
    /// before that line has arrived.
    #[inline(always)]
    pub(crate) fn place(&self, dir: u64, name: &ShortName) -> Place
        ensures first { 8 * self.now.slots + 8 ≤ result.first }
        ensures inside { result.first + 16 ≤ words_for self.now.slots }
        ensures few { result.tag < 4294967296 }
    {
        let hash = name_hash(name).wrapping_add(dir).wrapping_mul(BY_NAME);
        let share = hash / HALF * (3 * self.slots + 1) / HALF;
        Place {
            first: 8 * self.slots as usize + 8 + share as usize,
            tag: hash % HALF / 2 * 2 + 1,
        }
    }

    /// The line of the first hint that has the tag of this place.
    #[inline(always)]
    pub(crate) fn hinted(&self, seat: &mut LookSeat, place: Place) -> Option<usize>
        requires table { seat.old.table_id ≡ self.now.table.shared.table_id }
        requires inside { place.first + 16 ≤ words_for self.now.slots }
        ensures same { IsSameSeat seat.old seat.new }
        ensures read { Follows seat.old.me.0.role seat.new.me.0.role (λ content. ⊤) }
    {
        for way in 0..WAYS {
            let hint = self.word(seat, place.first + way);
            if hint / HALF == place.tag {
                return Some((hint % HALF) as usize);
            }
        }
        None
    }
}
