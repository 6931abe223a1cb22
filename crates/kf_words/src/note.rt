//! Notes of what was done while one thread had the Master, for example under the tree's lock. The code keeps
//! no list of notes: no value of type `Note` is ever made.
use kf_core::{Command, Key};
use std::marker::Brand;

/// A note of what was done while one thread had the Master.
pub enum Note {
    /// A command was stored.
    Did(Command),
    /// A self-removal of a node was claimed.
    Claimed(Key),
    /// The stored commands were replaced by others that make the same tree.
    Compacted,
    /// A tree of this many slots was made, with only this root.
    Began(u32, Key),
    /// The lock was taken.
    LockTaken,
    /// The lock is about to be released. What was done between the last `LockTaken` and this note was done in
    /// one critical section.
    LockReleased,
}

/// The note that a call picks.
pub trait Said {
    ghost use Rattle.kf_words.specs.declared.note.Note.{Note};

    ghost note: { Note };
}

impl Said for Brand {
    ghost use Rattle.kf_words.specs.declared.note.Note.TheVariants.{Compacted};

    ghost note = { Compacted };
}
