//! How many callers are on a slot.

ghost use Rattle.std.specs.Prelude.{◌≡◌, ◌+◌, ◌<◌, ◌≤◌, ◌^◌, not};
ghost use Rattle.kf_core.specs.Phases.{has_reference, is_hiding, is_spent};
ghost use Rattle.kf_core.specs.Tallies.{tally};

use kf_core::Phase;

/// How many callers on a slot are not spent, how many have a reference, and how many hide their node.
#[derive(Clone, Copy)]
pub(crate) struct Counts {
    pub(crate) holds: usize,
    pub(crate) references: usize,
    pub(crate) hiders: usize,
}

impl Counts {
    /// The counts of a slot without callers.
    pub(crate) const NONE: Counts = Counts {
        holds: 0,
        references: 0,
        hiders: 0,
    };

    /// The counts with one more caller, in this phase.
    pub(crate) fn with(self, phase: Phase) -> Counts
        requires few_holds { self.holds + 1 < 2 ^ 64 }
        requires few_references { self.references + 1 < 2 ^ 64 }
        requires few_hiders { self.hiders + 1 < 2 ^ 64 }
        ensures holds { result.holds ≡ self.holds + tally (not (is_spent phase)) }
        ensures references { result.references ≡ self.references + tally (has_reference phase) }
        ensures hiders { result.hiders ≡ self.hiders + tally (is_hiding phase) }
    {
        Counts {
            holds: self.holds + usize::from(!phase.is_spent()),
            references: self.references + usize::from(phase.has_reference()),
            hiders: self.hiders + usize::from(phase.is_hiding()),
        }
    }

    /// The counts after the removal of one caller, which was in this phase.
    pub(crate) fn without(self, phase: Phase) -> Counts
        requires holds { tally (not (is_spent phase)) ≤ self.holds }
        requires references { tally (has_reference phase) ≤ self.references }
        requires hiders { tally (is_hiding phase) ≤ self.hiders }
        ensures holds { result.holds + tally (not (is_spent phase)) ≡ self.holds }
        ensures references { result.references + tally (has_reference phase) ≡ self.references }
        ensures hiders { result.hiders + tally (is_hiding phase) ≡ self.hiders }
    {
        Counts {
            holds: self.holds - usize::from(!phase.is_spent()),
            references: self.references - usize::from(phase.has_reference()),
            hiders: self.hiders - usize::from(phase.is_hiding()),
        }
    }
}
