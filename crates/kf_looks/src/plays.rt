//! The kinds of step on the table, and what each makes of the view of the seat that takes it.
use crate::view::LookView;
use atomic_table::{Join, Play, Split};

/// A new seat sits down.
pub(crate) struct Sits;

impl Play<(), LookView> for Sits {
    ghost use Rattle.kf_looks.specs.Steps.{MakesSeat};

    ghost then = { MakesSeat };
}

/// A reader loads the version first.
pub(crate) struct Begins;

impl Play<(), LookView> for Begins {
    ghost use Rattle.kf_looks.specs.Steps.{MakesBegin};

    ghost then = { MakesBegin };
}

/// A seat loads one of the words after the version.
pub(crate) struct Peeks;

impl Play<(), LookView> for Peeks {
    ghost use Rattle.kf_looks.specs.Steps.{MakesPeek};

    ghost then = { MakesPeek };
}

/// A reader loads the version again.
pub(crate) struct Checks;

impl Play<(), LookView> for Checks {
    ghost use Rattle.kf_looks.specs.Steps.{MakesCheck};

    ghost then = { MakesCheck };
}

/// The writer loads one of the words after the version, and finds what it planned.
pub(crate) struct Recalls;

impl Play<(), LookView> for Recalls {
    ghost use Rattle.kf_looks.specs.Steps.{MakesRecall};

    ghost then = { MakesRecall };
}

/// The writer makes the next version.
pub(crate) struct Moves;

impl Play<(), LookView> for Moves {
    ghost use Rattle.kf_looks.specs.Steps.{MakesMove};

    ghost then = { MakesMove };
}

/// The writer changes a word.
pub(crate) struct Puts;

impl Play<(), LookView> for Puts {
    ghost use Rattle.kf_looks.specs.Steps.{MakesPut};

    ghost then = { MakesPut };
}

/// The writer changes the last word of a line.
pub(crate) struct Enters;

impl Play<(), LookView> for Enters {
    ghost use Rattle.kf_looks.specs.Steps.{MakesEntry};

    ghost then = { MakesEntry };
}

/// The writer makes a reader, which has seen all links.
pub(crate) struct Tells;

impl Split<LookView> for Tells {
    ghost use Rattle.kf_looks.specs.Steps.{told};

    ghost left = { λ v. v };

    ghost right = { told };
}

/// A reader makes another one, which has seen the same links.
pub(crate) struct Copies;

impl Split<LookView> for Copies {
    ghost use Rattle.kf_looks.specs.Steps.{like};

    ghost left = { λ v. v };

    ghost right = { like };
}
