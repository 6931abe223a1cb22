//! What a uevent says.

use kf_core::Key;
use std::fmt;

/// What happened to a node (`enum kobject_action`).
#[derive(Clone, Copy, Debug, PartialEq, Eq)]
pub enum Action {
    /// It was activated (`KOBJ_ADD`).
    Add,
    /// Its removal has begun (`KOBJ_REMOVE`).
    Remove,
    /// Its owner has reported a change (`KOBJ_CHANGE`).
    Change,
    /// It was moved or renamed (`KOBJ_MOVE`).
    Move,
}

/// The kernel's word for the action (`ACTION`).
impl fmt::Display for Action {
    fn fmt<W: fmt::Write>(&self, f: &mut fmt::Formatter<W>) -> fmt::Result {
        let text = match self {
            Action::Add => "add",
            Action::Remove => "remove",
            Action::Change => "change",
            Action::Move => "move",
        };
        f.write_str(text)
    }
}

/// One event: what happened to a node, the node's key, and its path at that time (`DEVPATH`).
#[derive(Debug, Drop)]
pub struct Uevent {
    pub action: Action,
    pub key: Key,
    /// The node's path. For a removal it is the path before the removal, for a move the path after the move.
    pub path: Vec<u8>,
    /// The path that a moved node had before (`DEVPATH_OLD`); other events have none.
    pub from: Option<Vec<u8>>,
}
