//! The tags of the files that a seat makes. No other seat hands these tags out, and this seat hands out each
//! of them once.

ghost use Rattle.std.specs.Prelude.{◌≡◌, ◌≤◌, ◌<◌, ◌+◌, ℕ, IfOk, IfErr};
ghost use Rattle.kf_core.specs.declared.refusal.Refusal.TheVariants.{NoSpace};
ghost use Rattle.kf_workers.specs.TagRanges.{IsTagOf, first_tag};

use crate::serving::FIRST_DEVICE_TAG;
use kf_core::Refusal;

/// How many tags each seat has. All tags of 17 seats are below those of devices.
const TAGS_OF_A_SEAT: u64 = 1 << 58;

const _: () = prove!(17 * TAGS_OF_A_SEAT <= FIRST_DEVICE_TAG);

/// The tags that one seat has not handed out yet: from `next` on, below `end`.
#[derive(Drop)]
pub struct Tags {
    next: u64,
    end: u64,
    ghost left: { next ≤ end },
}

impl Tags {
    /// All tags of the seat with this number, 0 to 16.
    ///
    /// Condition: the seat is one of 0 to 16.
    pub fn of_seat(seat: u64) -> Tags
        requires { seat ≤ 16 }
        ensures first { result.next ≡ first_tag seat }
        ensures end { result.end ≡ first_tag (seat + 1) }
    {
        Tags {
            next: seat * TAGS_OF_A_SEAT,
            end: (seat + 1) * TAGS_OF_A_SEAT,
        }
    }

    /// Hands out the next tag. No tag is handed out twice. It fails with `NoSpace` if no tag is left.
    pub fn give(&mut self) -> Result<u64, Refusal>
        ensures given { IfOk result (λ tag. (tag ≡ self.old.next) × (tag < self.old.end)
            × (self.new.next ≡ tag + 1)) }
        ensures refused { IfErr result (λ why. (why ≡ NoSpace) × (self.old.next ≡ self.old.end)
            × (self.new.next ≡ self.old.next)) }
        ensures end { self.new.end ≡ self.old.end }
    {
        if self.next == self.end {
            return Err(Refusal::NoSpace);
        }
        let tag = self.next;
        self.next = tag + 1;
        Ok(tag)
    }
}

/// A law: no tag belongs to two seats. The function does nothing.
pub fn seats_share_no_tag()
    ensures { (one other tag : ℕ) → IsTagOf one tag → IsTagOf other tag → one ≡ other }
{}
