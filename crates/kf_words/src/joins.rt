//! How a seat comes to know what another seat has seen of the run.
use crate::sight::Sight;
use atomic_table::Join;
use std::marker::{Brand, PhantomData};

/// What a seat knows, as a call picks it.
pub(crate) trait Knowing {
    ghost use Rattle.kf_words.specs.declared.sight.Sight.{Sight};

    ghost sight: { Sight };
}

impl Knowing for Brand {
    ghost use Rattle.kf_words.specs.History.{no_sight};

    ghost sight = { no_sight };
}

/// A seat is shown what another seat has seen, and the other seat's knowledge stays as it was.
pub(crate) struct Hears<E: Knowing> {
    of: PhantomData<E>,
}

impl<E: Knowing> Join<Sight> for Hears<E> {
    ghost use Rattle.kf_words.specs.History.{hears};

    ghost both = { hears };

    ghost spent = { E.sight };
}

/// From now on a seat has seen exactly what another seat has seen, and the other seat's knowledge stays as it
/// was.
pub(crate) struct TakesOver<E: Knowing> {
    of: PhantomData<E>,
}

impl<E: Knowing> Join<Sight> for TakesOver<E> {
    ghost use Rattle.kf_words.specs.History.{takes_over};

    ghost both = { takes_over };

    ghost spent = { E.sight };
}
