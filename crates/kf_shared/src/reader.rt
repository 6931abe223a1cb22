//! The guard of threads that only read the tree.
ghost use Rattle.std.specs.Prelude.{◌≡◌};
ghost use Rattle.kf_shared.specs.Locked.{IsWhole};
ghost use Rattle.kf_shared.specs.LookUps.{IsLedInRun};

use crate::locked::Locked;
use crate::naming::Naming;
use kf_tree::State;
use std::marker::Model;
use std::sync::RwLockReadGuard;

/// The tree while its lock is held for reading. Many threads may have a `Reader` at once, and none has an
/// [`Editor`](crate::Editor) meanwhile. In contracts it is what the lock guards.
#[derive(Drop)]
pub struct Reader<'a, N: Naming> {
    pub(crate) guard: RwLockReadGuard<'a, Locked<N>>,
}

impl<'a, N: Naming> Model for Reader<'a, N> {
    ghost use Rattle.std.specs.Sync.RwLock.{read_guard_value};
    ghost use Rattle.kf_shared.specs.Locked.{Locked};

    ghost Value = { Locked };

    ghost view = { λ s. read_guard_value s.guard };
}

impl<N: Naming> Reader<'_, N> {
    /// The tree with its stored commands. It is lawful and the replay of its commands.
    pub fn state(&self) -> &State
        ensures same { result.now ≡ self.now.state }
        ensures whole { IsWhole N.table self.now }
        ensures led { IsLedInRun self.now }
    {
        self.guard.state()
    }
}
