//! The callbacks of a file, and the errors of operations on a file.

ghost use Rattle.std.specs.Prelude.{◌≡◌, ◌<◌, ◌≤◌, ℕ, List, [], Result, length};
ghost use Rattle.kf_core.specs.Calls.{GivenBack};
ghost use Rattle.kf_core.specs.declared.caller.Phase.TheVariants.{Running};
ghost use Rattle.kf_pages.specs.declared.ops.Fault.{Fault};
ghost use Rattle.kf_pages.specs.declared.ops.FileError.TheVariants.{Callback};
ghost use Rattle.kf_pages.specs.Files.{filled_by};

use arrayvec::ArrayVec;
use kf_core::{ActiveCall, Refusal};

/// What a show fills: at most 4,096 bytes (`PAGE_SIZE`).
pub type Page = ArrayVec<u8, 4096>;

/// Why a callback failed: a number that the callback chose.
#[derive(Clone, Copy, Debug, PartialEq, Eq)]
pub struct Fault {
    /// The number that a script prints in `err Callback NUMBER`.
    pub number: u16,
}

/// Why an operation on a file failed.
#[derive(Clone, Copy, Debug, PartialEq, Eq)]
pub enum FileError {
    /// The file itself refused the operation: `Access` or `NoDevice`.
    Refused(Refusal),
    /// The callback was made, and failed.
    Callback(Fault),
}

impl From<Fault> for FileError {
    ghost from_gives = { λ fault error. error ≡ Callback fault };

    fn from(fault: Fault) -> FileError {
        FileError::Callback(fault)
    }
}

/// The callbacks of attribute files (`struct sysfs_ops`). A file's tag says which file it is. A callback is
/// made only under a running call, which it borrows. The callback may break the call's protection and restore
/// it, but when it returns, the same call must have a reference.
pub trait Ops<C: ActiveCall> {
    /// A show for this tag filled a page with these bytes, or failed with this fault.
    ghost shows: { Self → ℕ → Result (List ℕ) Fault → Self → Type 0 };

    /// A store of these bytes for this tag returned this.
    ghost stores: { Self → ℕ → List ℕ → Result ℕ Fault → Self → Type 0 };

    /// Fills the empty page with the text, or fails with a fault. What it put on the page before a fault is
    /// not shown.
    ///
    /// Conditions: the call is Running, and the page is empty.
    fn show(&mut self, call: &mut C, tag: u64, page: &mut Page) -> Result<(), Fault>
        requires running { (C.view_of call.old).phase ≡ Running }
        requires empty { page.old.items ≡ [] }
        ensures shown { shows self.old tag (filled_by result page.new.items) self.new }
        ensures call { GivenBack (C.view_of call.old) (C.view_of call.new) };

    /// Takes the bytes and returns how many it took, or fails with a fault.
    ///
    /// Conditions: the call is Running, and there are 1 to 4,096 bytes.
    fn store(&mut self, call: &mut C, tag: u64, bytes: &[u8]) -> Result<usize, Fault>
        requires running { (C.view_of call.old).phase ≡ Running }
        requires some { 0 < length bytes.now }
        requires fits { length bytes.now ≤ 4096 }
        ensures stored { stores self.old tag bytes.now result self.new }
        ensures call { GivenBack (C.view_of call.old) (C.view_of call.new) };
}
