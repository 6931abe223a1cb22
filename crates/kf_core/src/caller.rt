//! Callers, and the phases that each goes through between its pin and its release.

ghost use Rattle.std.specs.Prelude.{◌≡◌};
ghost use Rattle.kf_core.specs.Phases.{is_waiting, has_reference, is_hiding, is_spent};

use crate::key::Key;

/// How far a caller has come between its pin and its release.
#[derive(Clone, Copy, Debug, PartialEq, Eq)]
pub enum Phase {
    /// Holds the slot, without a reference.
    Still,
    /// Like `Still`, but the caller's last try found that the node is not live.
    Turned,
    /// Has an active reference (`kernfs_get_active` succeeded).
    Running,
    /// Gave its reference up inside its callback (`kernfs_break_active_protection`).
    Broken,
    /// Took a reference again after breaking (`kernfs_unbreak_active_protection`).
    Restored,
    /// Saw that the node is doomed and that nobody has a reference (`kernfs_drain` returned).
    Drained,
    /// Like `Drained`, and the caller has also seen that the node is not linked.
    Parted,
    /// Hides its node, and waits until nobody has a reference to it.
    Hiding,
    /// Hides its node, and saw that nobody has a reference to it.
    Hidden,
    /// Holds nothing: its hold was released.
    Spent,
}

impl Phase {
    /// Whether a caller in this phase may try for a reference, and may look for the drain (`Still` or
    /// `Turned`).
    pub fn is_waiting(self) -> bool
        ensures known { result ≡ is_waiting self }
    {
        matches!(self, Phase::Still | Phase::Turned)
    }

    /// Whether a caller in this phase has a reference, so that a drain waits for it (`Running` or
    /// `Restored`).
    pub fn has_reference(self) -> bool
        ensures known { result ≡ has_reference self }
    {
        matches!(self, Phase::Running | Phase::Restored)
    }

    /// Whether a caller in this phase hides its node (`Hiding` or `Hidden`).
    pub fn is_hiding(self) -> bool
        ensures known { result ≡ is_hiding self }
    {
        matches!(self, Phase::Hiding | Phase::Hidden)
    }

    /// Whether a caller in this phase has released its hold (`Spent`).
    pub fn is_spent(self) -> bool
        ensures known { result ≡ is_spent self }
    {
        matches!(self, Phase::Spent)
    }
}

/// A caller: the key that it holds, and its phase.
#[derive(Clone, Copy, Debug, PartialEq, Eq)]
pub struct Caller {
    pub key: Key,
    pub phase: Phase,
}
