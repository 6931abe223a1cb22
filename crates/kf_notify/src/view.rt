//! What each seat at the table of numbers knows. The rule of the table mentions this type, so the code
//! declares it, but no value of it is ever made.

/// What a seat knows.
pub struct NumberView {
    /// The slot of its last step.
    pub slot: u32,
    /// The greatest number that it has seen or made in that slot.
    pub known: u64,
    /// The number that each slot had at first.
    pub start: u64,
    /// What its last load found.
    pub found: u64,
    /// The last number that it has made, or 0 if it has made none.
    pub made: u64,
    /// How many steps it has made on the words of slots.
    pub steps: u64,
}
