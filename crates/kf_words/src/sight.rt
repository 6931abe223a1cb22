//! The one run of all steps at a table of words, and what each seat has seen of it. The rule of the table
//! speaks of these types, so they are types of the code. But no value of type `Sight` or `StepKind` is ever
//! made.
use crate::note::Note;
use crate::view::View;
use std::collections::LinkedList;

/// How a table begins: with this many slots, each of which has at most this many holds. Each slot has the
/// last generation `start` and no node, except the root's slot. Its node is live and of the next generation.
#[derive(Clone, Copy)]
pub struct Opening {
    pub holds: u32,
    pub slots: u32,
    pub start: u32,
}

/// What a step does, and who makes it. A step of a caller has the caller's number, and a step of the Master
/// has a slot. Of the Master's steps, only `Notes`, `Answers` and `Compares` have no slot.
pub enum StepKind {
    /// One more user in the active word (an addition).
    Tries(u64),
    /// One fewer user, after a refused try (a subtraction).
    Undoes(u64),
    /// One fewer user, at the end of a call.
    Leaves(u64),
    /// One fewer user, inside the call.
    Breaks(u64),
    /// One more user, inside the call.
    Restores(u64),
    /// The active word is loaded, to look for the drain.
    Looks(u64),
    /// The hold word is loaded by a caller that saw the drain.
    Parts(u64),
    /// The bit HIDE of the active word is set.
    Hides(u64),
    /// The active word is loaded, to look for callers inside a hidden file.
    LooksHidden(u64),
    /// The bit HIDE of the active word is cleared.
    Shows(u64),
    /// One fewer hold in the hold word.
    Releases(u64),
    /// The hold word of its slot is read, or an exchange on it fails.
    SeesHolds(u64),
    /// One more hold in the hold word of its slot (an exchange).
    CountsHold(u64),
    /// The hold that was counted gets its seat.
    Shares(u64),
    LoadsHold(u64),
    PinsHold(u64),
    UnpinsHold(u64),
    Splits(u64),
    StoresFresh(u64),
    Births(u64),
    TakesBias(u64),
    MarksNode(u64),
    LooksOver(u64),
    Unlinks(u64),
    Notes(Note),
    Reports(u64),
    Answers,
    Compares,
    /// Like `SeesHolds` and `CountsHold`, but on the slot of any key: first the slot, then the caller.
    SeesHoldsAt(u64, u64),
    CountsHoldAt(u64, u64),
    HandsOn(u64),
    /// The slot whose sleepers are counted, and the caller.
    Sleeps(u64, u64),
    Awakes(u64, u64),
    LoadsSleepers(u64, u64),
    /// The slot of any node, and which of its words. The last number is the word that `StoresNode` stores, or
    /// the caller of `ReadsNode`.
    StoresNode(u64, u64, u64),
    ReadsNode(u64, u64, u64),
}

/// A beginning of the one run: the steps of all seats from the opening on, in order.
pub struct Seen {
    pub opening: Opening,
    pub steps: LinkedList<StepKind>,
}

/// What a seat knows: its view, the beginning of the run that it has seen, and a beginning that another seat
/// had seen and passed to it.
pub struct Sight {
    pub view: View,
    pub seen: Seen,
    pub shown: LinkedList<StepKind>,
}
