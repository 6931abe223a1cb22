//! The kinds of steps on a gate's words.
use crate::view::GateView;
use atomic_table::{Play, Split};

/// A seat makes the pass that it counted.
pub(crate) struct Passes;

impl Split<GateView> for Passes {
    ghost use Rattle.kf_gates.specs.Steps.{pass_made};
    ghost use Rattle.kf_gates.specs.declared.view.GateView.TheVariants.{Outside};

    ghost left = { pass_made };

    ghost right = { λ _. Outside };
}

/// A caller counts one more pass.
pub(crate) struct Counts;

impl Play<(), GateView> for Counts {
    ghost use Rattle.kf_gates.specs.Steps.{MakesCount};

    ghost then = { MakesCount };
}

/// A caller takes the pass that it counted off that count again.
pub(crate) struct Uncounts;

impl Play<(), GateView> for Uncounts {
    ghost use Rattle.kf_gates.specs.Steps.{MakesUncount};

    ghost then = { MakesUncount };
}

/// A caller counts itself in its lane.
pub(crate) struct Knocks;

impl Play<(), GateView> for Knocks {
    ghost use Rattle.kf_gates.specs.Steps.{MakesKnock};

    ghost then = { MakesKnock };
}

/// A caller loads the gate's word.
pub(crate) struct Looks;

impl Play<(), GateView> for Looks {
    ghost use Rattle.kf_gates.specs.Steps.{MakesLook};

    ghost then = { MakesLook };
}

/// A caller that has left its lane loads the gate's word.
pub(crate) struct LooksBack;

impl Play<(), GateView> for LooksBack {
    ghost use Rattle.kf_gates.specs.Steps.{MakesLookBack};

    ghost then = { MakesLookBack };
}

/// A caller takes itself off the count of its lane.
pub(crate) struct Leaves;

impl Play<(), GateView> for Leaves {
    ghost use Rattle.kf_gates.specs.Steps.{MakesLeave};

    ghost then = { MakesLeave };
}

/// A caller that is inside takes itself off the count of its lane, and will count itself there again.
pub(crate) struct Breaks;

impl Play<(), GateView> for Breaks {
    ghost use Rattle.kf_gates.specs.Steps.{MakesBreak};

    ghost then = { MakesBreak };
}

/// A caller that broke its protection counts itself in its lane again.
pub(crate) struct Restores;

impl Play<(), GateView> for Restores {
    ghost use Rattle.kf_gates.specs.Steps.{MakesRestore};

    ghost then = { MakesRestore };
}

/// The keeper shuts the gate.
pub(crate) struct Shuts;

impl Play<(), GateView> for Shuts {
    ghost use Rattle.kf_gates.specs.Steps.{MakesShut};

    ghost then = { MakesShut };
}

/// The keeper loads a lane.
pub(crate) struct Scans;

impl Play<(), GateView> for Scans {
    ghost use Rattle.kf_gates.specs.Steps.{MakesScan};

    ghost then = { MakesScan };
}

/// The keeper opens the gate under the next number.
pub(crate) struct Opens;

impl Play<(), GateView> for Opens {
    ghost use Rattle.kf_gates.specs.Steps.{MakesOpening};

    ghost then = { MakesOpening };
}

/// The keeper counts itself among the threads that sleep, or takes itself off that count.
pub(crate) struct CountsSleep;

impl Play<(), GateView> for CountsSleep {
    ghost use Rattle.kf_gates.specs.Steps.{MakesSleepCount};

    ghost then = { MakesSleepCount };
}
