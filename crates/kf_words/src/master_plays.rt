//! The kinds of steps that the Master makes on the table of words, and how each changes the Master's view.
use crate::note::Said;
use crate::sight::Sight;
use atomic_table::{Play, Split};
use std::marker::PhantomData;

/// The Master loads a hold word.
pub(crate) struct LoadsHold;

impl Play<(), Sight> for LoadsHold {
    ghost use Rattle.kf_words.specs.Layout.{hold_index};
    ghost use Rattle.kf_words.specs.Steps.{LoadsHold};
    ghost use Rattle.kf_words.specs.TableSteps.{loads_hold};
    ghost use Rattle.kf_words.specs.MadeByMaster.{MasterMakes};

    ghost then = { MasterMakes hold_index loads_hold LoadsHold };
}

/// The Master counts one more hold, which has no seat yet.
pub(crate) struct PinsHold;

impl Play<(), Sight> for PinsHold {
    ghost use Rattle.kf_words.specs.Layout.{hold_index};
    ghost use Rattle.kf_words.specs.Steps.{MasterBecomes, unread, with_pin};
    ghost use Rattle.kf_words.specs.TableSteps.{pins_hold};
    ghost use Rattle.kf_words.specs.MadeByMaster.{MasterMakes};

    ghost then = { MasterMakes hold_index pins_hold (MasterBecomes (unread with_pin)) };
}

/// The Master undoes the count of a hold that has no seat.
pub(crate) struct UnpinsHold;

impl Play<(), Sight> for UnpinsHold {
    ghost use Rattle.kf_words.specs.Layout.{hold_index};
    ghost use Rattle.kf_words.specs.Steps.{MasterBecomes, unread, without_pin};
    ghost use Rattle.kf_words.specs.TableSteps.{unpins_hold};
    ghost use Rattle.kf_words.specs.MadeByMaster.{MasterMakes};

    ghost then = { MasterMakes hold_index unpins_hold (MasterBecomes (unread without_pin)) };
}

/// The Master stores the active word of a node that is about to be born.
pub(crate) struct StoresFresh;

impl Play<(), Sight> for StoresFresh {
    ghost use Rattle.kf_words.specs.Layout.{active_index};
    ghost use Rattle.kf_words.specs.Steps.{MasterBecomes, unread, after_store};
    ghost use Rattle.kf_words.specs.TableSteps.{stores_fresh};
    ghost use Rattle.kf_words.specs.MadeByMaster.{MasterMakes};

    ghost then = { MasterMakes active_index stores_fresh (MasterBecomes (unread after_store)) };
}

/// The Master stores one of the words of a node that is about to be born.
pub(crate) struct StoresNode;

impl Play<(), Sight> for StoresNode {
    ghost use Rattle.kf_words.specs.MadeByMaster.{PutsNodeWord};

    ghost then = { PutsNodeWord };
}

/// The Master gives a slot its next generation, and links a node there.
pub(crate) struct Births;

impl Play<(), Sight> for Births {
    ghost use Rattle.kf_words.specs.Layout.{hold_index};
    ghost use Rattle.kf_words.specs.Steps.{MasterBecomes, unread, with_birth};
    ghost use Rattle.kf_words.specs.TableSteps.{births};
    ghost use Rattle.kf_words.specs.MadeByMaster.{MasterMakes};

    ghost then = { MasterMakes hold_index births (MasterBecomes (unread with_birth)) };
}

/// The Master clears the bit BIAS of an active word: the node is activated.
pub(crate) struct TakesBias;

impl Play<(), Sight> for TakesBias {
    ghost use Rattle.kf_words.specs.Layout.{active_index};
    ghost use Rattle.kf_words.specs.Steps.{MasterBecomes, unread, with_marks, activated_marks};
    ghost use Rattle.kf_words.specs.TableSteps.{takes_bias};
    ghost use Rattle.kf_words.specs.MadeByMaster.{MasterMakes};

    ghost then = { MasterMakes active_index takes_bias
        (MasterBecomes (unread (with_marks activated_marks))) };
}

/// The Master marks a node as doomed.
pub(crate) struct MarksNode;

impl Play<(), Sight> for MarksNode {
    ghost use Rattle.kf_words.specs.Layout.{active_index};
    ghost use Rattle.kf_words.specs.Steps.{MasterBecomes, unread, with_marks, doomed_marks};
    ghost use Rattle.kf_words.specs.TableSteps.{marks_node};
    ghost use Rattle.kf_words.specs.MadeByMaster.{MasterMakes};

    ghost then = { MasterMakes active_index marks_node (MasterBecomes (unread (with_marks doomed_marks))) };
}

/// The Master loads an active word.
pub(crate) struct LooksOver;

impl Play<(), Sight> for LooksOver {
    ghost use Rattle.kf_words.specs.Layout.{active_index};
    ghost use Rattle.kf_words.specs.Steps.{MasterBecomes, with_look};
    ghost use Rattle.kf_words.specs.TableSteps.{looks_over};
    ghost use Rattle.kf_words.specs.MadeByMaster.{MasterMakes};

    ghost then = { MasterMakes active_index looks_over (MasterBecomes with_look) };
}

/// The Master takes a node out of its slot.
pub(crate) struct Unlinks;

impl Play<(), Sight> for Unlinks {
    ghost use Rattle.kf_words.specs.Layout.{hold_index};
    ghost use Rattle.kf_words.specs.Steps.{MasterBecomes, unread, without_node};
    ghost use Rattle.kf_words.specs.TableSteps.{unlinks};
    ghost use Rattle.kf_words.specs.MadeByMaster.{MasterMakes};

    ghost then = { MasterMakes hold_index unlinks (MasterBecomes (unread without_node)) };
}

/// The Master adds a note to the run, and changes nothing.
pub(crate) struct Notes<E: Said> {
    of: PhantomData<E>,
}

impl<E: Said> Play<(), Sight> for Notes<E> {
    ghost use Rattle.kf_words.specs.MadeByMaster.{MakesNote};

    ghost then = { MakesNote E.note };
}

/// The hold that has no seat yet goes to a new seat.
pub(crate) struct SplitsHold;

impl Split<Sight> for SplitsHold {
    ghost use Rattle.kf_words.specs.History.{after_giving, given};

    ghost left = { after_giving };

    ghost right = { given };
}

/// The Master compares what it was shown with the run so far, and changes nothing.
pub(crate) struct Compares;

impl Play<(), Sight> for Compares {
    ghost use Rattle.kf_words.specs.MadeByMaster.{MakesCompare};

    ghost then = { MakesCompare };
}

/// A new seat, which holds nothing, has seen what the Master has seen.
pub(crate) struct Answers;

impl Split<Sight> for Answers {
    ghost use Rattle.kf_words.specs.History.{answered};

    ghost left = { λ s. s };

    ghost right = { answered };
}
