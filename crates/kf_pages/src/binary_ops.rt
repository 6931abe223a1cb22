//! The callbacks of binary attributes: any number of bytes at an offset, without a page.

ghost use Rattle.std.specs.Prelude.{◌≡◌, ◌<◌, ◌≤◌, ℕ, List, Result, IfOk, length};
ghost use Rattle.kf_core.specs.Calls.{GivenBack};
ghost use Rattle.kf_core.specs.declared.caller.Phase.TheVariants.{Running};
ghost use Rattle.kf_pages.specs.declared.ops.Fault.{Fault};
ghost use Rattle.kf_pages.specs.Binary.{front_of};

use crate::ops::Fault;
use kf_core::ActiveCall;

/// The callbacks of binary attributes (`struct bin_attribute`). A file's tag says which file it is. A
/// callback is made only under a running call, which it borrows. The callback may break the call's protection
/// and restore it, but when it returns, the same call must have a reference.
pub trait BinaryOps<C: ActiveCall> {
    /// A read for this tag at this offset, into this much room, returned these bytes, or this fault.
    ghost reads_at: { Self → ℕ → ℕ → ℕ → Result (List ℕ) Fault → Self → Type 0 };

    /// A write for this tag at this offset of these bytes returned this.
    ghost writes_at: { Self → ℕ → ℕ → List ℕ → Result ℕ Fault → Self → Type 0 };

    /// Puts the bytes from the offset on into the front of `out`, and returns how many it put there, which is
    /// 0 past the end; or fails with a fault. It may change the rest of `out` as it likes.
    ///
    /// Conditions: the call is Running, and there is room for at least one byte.
    fn read_at(
        &mut self,
        call: &mut C,
        tag: u64,
        offset: u64,
        out: &mut [u8],
    ) -> Result<usize, Fault>
        requires running { (C.view_of call.old).phase ≡ Running }
        requires some { 0 < length out.old }
        ensures fits { IfOk result (λ count. count ≤ length out.new) }
        ensures read { reads_at self.old tag offset (length out.old) (front_of result out.new) self.new }
        ensures call { GivenBack (C.view_of call.old) (C.view_of call.new) };

    /// Takes the bytes at the offset, and returns how many it took from their front, or fails with a fault.
    ///
    /// Conditions: the call is Running, and there is at least one byte.
    fn write_at(
        &mut self,
        call: &mut C,
        tag: u64,
        offset: u64,
        bytes: &[u8],
    ) -> Result<usize, Fault>
        requires running { (C.view_of call.old).phase ≡ Running }
        requires some { 0 < length bytes.now }
        ensures fits { IfOk result (λ count. count ≤ length bytes.now) }
        ensures written { writes_at self.old tag offset bytes.now result self.new }
        ensures call { GivenBack (C.view_of call.old) (C.view_of call.new) };
}
