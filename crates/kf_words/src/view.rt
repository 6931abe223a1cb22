//! What each seat at the table of words knows. The rule of the table speaks of these types, so they are types
//! of the code. But no value of these types is ever made.
use kf_core::{Key, Phase, SlotState};
use std::collections::LinkedList;

/// What a caller's seat knows.
pub struct CallerView {
    pub key: Key,
    pub phase: Phase,
    /// How many word steps it has made.
    pub steps: u64,
    /// How many of them were tries.
    pub tries: u64,
    /// The word that its last step found. The second step of a refused try does not change this.
    pub found: u64,
    /// Whether the second step of a refused try is still due.
    pub undo_due: bool,
    /// The key of one more hold that it counted, which has no seat yet.
    pub pinning: Option<Key>,
}

/// A load of a word of a slot, and what it found.
pub struct Load {
    pub slot: u32,
    pub word: u64,
}

/// What the Master's seat knows.
pub struct MasterView {
    /// The greatest number of holds of one slot.
    pub limit: u64,
    /// By slot, the last generation, and the marks of the node if one is linked.
    pub slots: LinkedList<SlotState>,
    /// The slot of a hold that is counted and has no seat yet.
    pub pinning: Option<u32>,
    /// The slot in which it stored a new active word, if this view has not changed since then.
    pub fresh: Option<u32>,
    /// Its loads of hold words since its last step, other than a load, on a hold word.
    pub loads: LinkedList<Load>,
    /// The loads of hold words that still counted when its last birth was made.
    pub at_birth: LinkedList<Load>,
    /// Its load of an active word, if this view has not changed since then.
    pub looked: Option<Load>,
}

/// The view of a seat: the Master's, or a caller's.
pub enum View {
    Master(MasterView),
    Caller(CallerView),
}
