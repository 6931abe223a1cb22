//! The callbacks of binary attributes, which may wait. They read and write any number of bytes at an offset,
//! without a page.

ghost use Rattle.std.specs.Prelude.{◌≡◌, ◌<◌, ◌≤◌, ℕ, List, Result, IfOk, length, true};
ghost use Rattle.kf_core.specs.Phases.{has_reference};
ghost use Rattle.kf_core.specs.declared.caller.Phase.TheVariants.{Running};
ghost use Rattle.kf_words.specs.Callers.{IsSameSeat};
ghost use Rattle.kf_pages.specs.declared.ops.Fault.{Fault};
ghost use Rattle.kf_pages.specs.Binary.{front_of};

use kf_pages::Fault;
use kf_shared::{Naming, SharedTree};
use kf_words::Call;
use std::sync::Wait;

/// The callbacks of binary attributes of the shared tree with this name, in addition to [`crate::WaitOps`].
/// Any number of threads may call them at once, with no lock held, and they may wait. A read or a write runs
/// only under a running call, which it borrows. When it returns, the call has a reference.
///
/// Conditions of each: the call is Running, and belongs to the tree's table.
pub trait WaitBinaryOps<N: Naming> {
    /// A read for this tag at this offset, into room for this many bytes, may return these bytes, or this
    /// fault.
    ghost may_read_at: { Self → ℕ → ℕ → ℕ → Result (List ℕ) Fault → Type 0 };

    /// A write for this tag at this offset of these bytes may return this.
    ghost may_write_at: { Self → ℕ → ℕ → List ℕ → Result ℕ Fault → Type 0 };

    /// Puts the bytes from the offset on into the front of `out`, which has room for at least one. It returns
    /// how many bytes it put there, 0 past the end, or fails with a fault.
    fn read_at<R: Wait>(
        &self,
        rt: &R,
        tree: &SharedTree<N>,
        call: &mut Call,
        tag: u64,
        offset: u64,
        out: &mut [u8],
    ) -> Result<usize, Fault>
        requires table { call.old.table ≡ N.table }
        requires running { call.old.phase ≡ Running }
        requires some { 0 < length out.old }
        ensures fits { IfOk result (λ count. count ≤ length out.new) }
        ensures read { may_read_at self.now tag offset (length out.old) (front_of result out.new) }
        ensures seat { IsSameSeat call.old call.new }
        ensures reference { has_reference call.new.phase ≡ true };

    /// Writes the bytes, at least one, at the offset. It returns how many it took from their front, or fails
    /// with a fault.
    fn write_at<R: Wait>(
        &self,
        rt: &R,
        tree: &SharedTree<N>,
        call: &mut Call,
        tag: u64,
        offset: u64,
        bytes: &[u8],
    ) -> Result<usize, Fault>
        requires table { call.old.table ≡ N.table }
        requires running { call.old.phase ≡ Running }
        requires some { 0 < length bytes.now }
        ensures fits { IfOk result (λ count. count ≤ length bytes.now) }
        ensures written { may_write_at self.now tag offset bytes.now result }
        ensures seat { IsSameSeat call.old call.new }
        ensures reference { has_reference call.new.phase ≡ true };
}
