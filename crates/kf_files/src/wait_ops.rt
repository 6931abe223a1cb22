//! The callbacks of files of a shared tree, which may wait and may change the tree.

ghost use Rattle.std.specs.Prelude.{◌≡◌, ◌<◌, ◌≤◌, ℕ, List, [], Result, length, true};
ghost use Rattle.kf_core.specs.Phases.{has_reference};
ghost use Rattle.kf_core.specs.declared.caller.Phase.TheVariants.{Running};
ghost use Rattle.kf_words.specs.Callers.{IsSameSeat};
ghost use Rattle.kf_pages.specs.declared.ops.Fault.{Fault};
ghost use Rattle.kf_pages.specs.Files.{filled_by};

use kf_pages::{Fault, Page};
use kf_shared::{Naming, SharedTree};
use kf_words::Call;
use std::sync::Wait;

/// The callbacks of files of the shared tree with this name (`struct sysfs_ops`). Any number of threads may
/// call them at once, with no lock held, so a callback may take the lock of its tree and may wait. A file is
/// identified by its tag. Callbacks that serve only one tree may keep its holds, event counters and keys.
///
/// A show or a store runs only under a running call, which it borrows. It may give up the call's reference
/// and take it again, as `remove_self` does. When it returns, the call has a reference. A callback that
/// removes its own node, or one above it, without `remove_self` waits for itself.
///
/// Conditions of each show and store: the call is Running, and belongs to the tree's table.
pub trait WaitOps<N: Naming> {
    /// A show for this tag may fill a page with these bytes, or fail with this fault.
    ghost may_show: { Self → ℕ → Result (List ℕ) Fault → Type 0 };

    /// A store of these bytes for this tag may return this.
    ghost may_store: { Self → ℕ → List ℕ → Result ℕ Fault → Type 0 };

    /// Fills the empty page with the text, or fails with a fault. What it put on the page before a fault is
    /// not shown.
    fn show<R: Wait>(
        &self,
        rt: &R,
        tree: &SharedTree<N>,
        call: &mut Call,
        tag: u64,
        page: &mut Page,
    ) -> Result<(), Fault>
        requires table { call.old.table ≡ N.table }
        requires running { call.old.phase ≡ Running }
        requires empty { page.old.items ≡ [] }
        ensures shown { may_show self.now tag (filled_by result page.new.items) }
        ensures seat { IsSameSeat call.old call.new }
        ensures reference { has_reference call.new.phase ≡ true };

    /// Takes the bytes, 1 to 4,096 of them, and returns how many it took, or fails with a fault.
    fn store<R: Wait>(
        &self,
        rt: &R,
        tree: &SharedTree<N>,
        call: &mut Call,
        tag: u64,
        bytes: &[u8],
    ) -> Result<usize, Fault>
        requires table { call.old.table ≡ N.table }
        requires running { call.old.phase ≡ Running }
        requires some { 0 < length bytes.now }
        requires fits { length bytes.now ≤ 4096 }
        ensures stored { may_store self.now tag bytes.now result }
        ensures seat { IsSameSeat call.old call.new }
        ensures reference { has_reference call.new.phase ≡ true };
}
