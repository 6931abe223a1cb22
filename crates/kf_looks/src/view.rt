//! What each seat at the table of words knows. The rule of the table speaks of these types, so the code
//! declares them, but no value of them is ever made. A clause reads an array as a list of any length.
use crate::found::Found;
use kf_core::Key;

/// A change of one name: in this directory, the name was given this child. If the child is None, the name was
/// taken away.
pub struct Link {
    pub dir: Key,
    pub name: [u8; 0],
    pub child: Option<Found>,
}

/// A word that was read, by its number among the words after the version, and what was found there.
pub struct Read {
    pub word: u64,
    pub found: u64,
}

/// What the writer knows: the version, the words after it, and all links, the last one first.
pub struct Plan {
    pub version: u64,
    pub draft: [u64; 0],
    pub links: [Link; 0],
}

/// What a seat does.
pub enum Role {
    Idle,
    /// The seat found this even version first, and has made these reads since, the last one first.
    Reading(u64, [Read; 0]),
    Writing(Plan),
}

/// What a seat knows: how many slots the table has lines for, what the seat does, and the links that it has
/// seen, the last one first.
pub struct LookView {
    pub slots: u64,
    pub role: Role,
    pub seen: [Link; 0],
}
