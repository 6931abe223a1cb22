//! The kinds of steps that a caller makes on the table of words, and how each changes the view of its seat.
use crate::sight::Sight;
use atomic_table::{Play, Split};
use std::marker::{Brand, PhantomData};

/// A caller counts itself in the active word.
pub(crate) struct Tries;

impl Play<(), Sight> for Tries {
    ghost use Rattle.kf_words.specs.Made.{MakesTry};

    ghost then = { MakesTry };
}

/// A caller undoes a refused try.
pub(crate) struct Undoes;

impl Play<(), Sight> for Undoes {
    ghost use Rattle.kf_words.specs.Made.{MakesUndo};

    ghost then = { MakesUndo };
}

/// A caller ends its call.
pub(crate) struct Leaves;

impl Play<(), Sight> for Leaves {
    ghost use Rattle.kf_words.specs.Made.{MakesLeave};

    ghost then = { MakesLeave };
}

/// A caller gives up its reference inside its call.
pub(crate) struct Breaks;

impl Play<(), Sight> for Breaks {
    ghost use Rattle.kf_words.specs.Made.{MakesBreak};

    ghost then = { MakesBreak };
}

/// A caller takes a reference again inside its call.
pub(crate) struct Restores;

impl Play<(), Sight> for Restores {
    ghost use Rattle.kf_words.specs.Made.{MakesRestore};

    ghost then = { MakesRestore };
}

/// A caller loads the active word.
pub(crate) struct Looks;

impl Play<(), Sight> for Looks {
    ghost use Rattle.kf_words.specs.Made.{MakesLook};

    ghost then = { MakesLook };
}

/// A caller sets the bit HIDE.
pub(crate) struct Hides;

impl Play<(), Sight> for Hides {
    ghost use Rattle.kf_words.specs.Made.{MakesHide};

    ghost then = { MakesHide };
}

/// A caller that hides its key loads the active word.
pub(crate) struct LooksHidden;

impl Play<(), Sight> for LooksHidden {
    ghost use Rattle.kf_words.specs.Made.{MakesLookHidden};

    ghost then = { MakesLookHidden };
}

/// A caller clears the bit HIDE.
pub(crate) struct Shows;

impl Play<(), Sight> for Shows {
    ghost use Rattle.kf_words.specs.Made.{MakesShow};

    ghost then = { MakesShow };
}

/// A caller loads the hold word.
pub(crate) struct Parts;

impl Play<(), Sight> for Parts {
    ghost use Rattle.kf_words.specs.Made.{MakesPart};

    ghost then = { MakesPart };
}

/// A caller releases its hold of the slot.
pub(crate) struct Releases;

impl Play<(), Sight> for Releases {
    ghost use Rattle.kf_words.specs.Made.{MakesRelease};

    ghost then = { MakesRelease };
}

/// The greatest number of holds of a slot, as a call picks it.
pub(crate) trait Most {
    ghost use Rattle.std.specs.Prelude.{ℕ};

    ghost most: { ℕ };
}

impl Most for Brand {
    ghost most = { 0 };
}

/// A caller releases its hold of the slot, and names the greatest number of holds of a slot.
pub(crate) struct ReleasesOf<E: Most> {
    of: PhantomData<E>,
}

impl<E: Most> Play<(), Sight> for ReleasesOf<E> {
    ghost use Rattle.kf_words.specs.Made.{MakesReleaseOf};

    ghost then = { MakesReleaseOf E.most };
}

/// A caller loads the hold word, and names the greatest number of holds of a slot.
pub(crate) struct SeesHolds;

impl Play<(), Sight> for SeesHolds {
    ghost use Rattle.kf_words.specs.Made.{MakesMiss};

    ghost then = { MakesMiss };
}

/// A caller counts one more hold, if the hold word is as it expects.
pub(crate) struct CountsHold;

impl Play<(), Sight> for CountsHold {
    ghost use Rattle.kf_words.specs.Made.{MakesExchange};

    ghost then = { MakesExchange };
}

/// The hold that a caller counted goes to a new seat.
pub(crate) struct SharesHold;

impl Split<Sight> for SharesHold {
    ghost use Rattle.kf_words.specs.History.{after_sharing, shared_out};

    ghost left = { after_sharing };

    ghost right = { shared_out };
}

/// A caller loads the hold word of any slot by an exchange, and names the greatest number of holds of a slot.
pub(crate) struct SeesHoldsAt;

impl Play<(), Sight> for SeesHoldsAt {
    ghost use Rattle.kf_words.specs.Pins.{MakesMissAt};

    ghost then = { MakesMissAt };
}

/// A caller loads the hold word of any slot.
pub(crate) struct LooksAt;

impl Play<(), Sight> for LooksAt {
    ghost use Rattle.kf_words.specs.Pins.{MakesLookAt};

    ghost then = { MakesLookAt };
}

/// A caller loads a word of any slot's node.
pub(crate) struct ReadsNode;

impl Play<(), Sight> for ReadsNode {
    ghost use Rattle.kf_words.specs.Pins.{MakesRead};

    ghost then = { MakesRead };
}

/// A caller counts one more hold of any key, if the hold word is as it expects.
pub(crate) struct CountsHoldAt;

impl Play<(), Sight> for CountsHoldAt {
    ghost use Rattle.kf_words.specs.Pins.{MakesExchangeAt};

    ghost then = { MakesExchangeAt };
}

/// The hold that a caller counted, of any key, goes to a new seat.
pub(crate) struct HandsOn;

impl Split<Sight> for HandsOn {
    ghost use Rattle.kf_words.specs.History.{after_sharing, handed_on};

    ghost left = { after_sharing };

    ghost right = { handed_on };
}

/// A caller counts itself among its slot's sleepers.
pub(crate) struct Sleeps;

impl Play<(), Sight> for Sleeps {
    ghost use Rattle.kf_words.specs.TableSteps.{sleeps};
    ghost use Rattle.kf_words.specs.Made.{MakesOnSleepers};

    ghost then = { MakesOnSleepers sleeps };
}

/// A caller takes itself off the count of its slot's sleepers.
pub(crate) struct Awakes;

impl Play<(), Sight> for Awakes {
    ghost use Rattle.kf_words.specs.TableSteps.{awakes};
    ghost use Rattle.kf_words.specs.Made.{MakesOnSleepers};

    ghost then = { MakesOnSleepers awakes };
}

/// A caller loads the count of its slot's sleepers.
pub(crate) struct LoadsSleepers;

impl Play<(), Sight> for LoadsSleepers {
    ghost use Rattle.kf_words.specs.Made.{MakesSleeperLoad};

    ghost then = { MakesSleeperLoad };
}

/// A new seat, which holds nothing, has seen what a caller has seen.
pub(crate) struct Reports;

impl Split<Sight> for Reports {
    ghost use Rattle.kf_words.specs.History.{reported};

    ghost left = { λ s. s };

    ghost right = { reported };
}
