//! Linux's error numbers, negative, as the calls return them.
ghost use Rattle.std.specs.Prelude.{◌≡◌, pos, neg_ℤ};
ghost use Rattle.kf_core.specs.Refusals.{number_of};

use kf_core::Refusal;

/// Somebody is inside, a marked node has no room for another hold, or a look-up without the lock found
/// nothing (`EAGAIN`).
pub const AGAIN: i32 = -11;

/// There is no memory (`ENOMEM`).
pub const NO_MEMORY: i32 = -12;

/// The file was not opened for that (`EACCES`).
pub const ACCESS: i32 = -13;

/// Somebody may be inside a hidden file, a gate is not closed, or a pass is inside (`EBUSY`).
pub const BUSY: i32 = -16;

/// The node is not live (`ENODEV`).
pub const NO_DEVICE: i32 = -19;

/// The call does not fit what is behind the handle, or an argument is not valid (`EINVAL`).
pub const INVALID: i32 = -22;

/// The text does not fit into the buffer (`ERANGE`).
pub const RANGE: i32 = -34;

/// The event number cannot be raised any further (`EOVERFLOW`).
pub const OVERFLOW: i32 = -75;

/// The negative error number of a refusal.
pub fn error_of(refusal: Refusal) -> i32
    ensures { result ≡ neg_ℤ (pos (number_of refusal)) }
{
    -i32::from(refusal.number())
}
