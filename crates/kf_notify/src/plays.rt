//! The kinds of steps on the table of numbers, and what each does to the view of the seat that makes it.
use crate::sight::NumberSight;
use atomic_table::{Play, Split};

/// A seat loads the number of a slot.
pub(crate) struct Loads;

impl Play<(), NumberSight> for Loads {
    ghost use Rattle.kf_notify.specs.Next.{MakesLoad};

    ghost then = { MakesLoad };
}

/// A seat makes a number: it raises the number of its slot to at least that one.
pub(crate) struct Raises;

impl Play<(), NumberSight> for Raises {
    ghost use Rattle.kf_notify.specs.Next.{MakesRaise};

    ghost then = { MakesRaise };
}

/// A seat makes a new seat, which knows what the old one knows. The old seat stays as it was.
pub(crate) struct Doubles;

impl Split<NumberSight> for Doubles {
    ghost use Rattle.kf_notify.specs.History.{given};

    ghost left = { λ s. s };

    ghost right = { given };
}
