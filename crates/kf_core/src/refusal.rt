//! Why a call is refused.

ghost use Rattle.std.specs.Prelude.{◌≡◌};
ghost use Rattle.kf_core.specs.declared.refusal.Refusal.TheVariants.{NoMemory};
ghost use Rattle.kf_core.specs.Refusals.{name_of, number_of};

use std::alloc::{AllocError, AllocFailed};
use thiserror::Error;

/// Why a call is refused. The numbers are Linux's error numbers.
#[derive(Clone, Copy, Debug, PartialEq, Eq, Error)]
pub enum Refusal {
    /// There is no such node, or it is not live (`ENOENT`).
    #[error("NoEntry")]
    NoEntry,
    /// A request for memory was refused (`ENOMEM`). If a call allocates before it has checked for every other
    /// cause, it may return this instead of one of them.
    #[error("NoMemory")]
    NoMemory,
    /// The file's mode, or the way in which it was opened, does not allow the call (`EACCES`).
    #[error("Access")]
    Access,
    /// The node is in use (`EBUSY`).
    #[error("Busy")]
    Busy,
    /// The name is taken (`EEXIST`).
    #[error("Exists")]
    Exists,
    /// The node is no longer live, or there is no such device (`ENODEV`).
    #[error("NoDevice")]
    NoDevice,
    /// The node is not a directory (`ENOTDIR`).
    #[error("NotDir")]
    NotDir,
    /// The node is a directory (`EISDIR`).
    #[error("IsDir")]
    IsDir,
    /// The request makes no sense (`EINVAL`).
    #[error("Invalid")]
    Invalid,
    /// The slot has no room for another hold (`EMFILE`).
    #[error("TooManyHolds")]
    TooManyHolds,
    /// No slot is free (`ENOSPC`).
    #[error("NoSpace")]
    NoSpace,
    /// The name has more than 255 bytes (`ENAMETOOLONG`).
    #[error("NameTooLong")]
    NameTooLong,
}

impl Refusal {
    /// The name of the refusal, as scripts print it.
    pub fn name(self) -> &'static str
        ensures known { result.now ≡ name_of self }
    {
        match self {
            Refusal::NoEntry => "NoEntry",
            Refusal::NoMemory => "NoMemory",
            Refusal::Access => "Access",
            Refusal::Busy => "Busy",
            Refusal::Exists => "Exists",
            Refusal::NoDevice => "NoDevice",
            Refusal::NotDir => "NotDir",
            Refusal::IsDir => "IsDir",
            Refusal::Invalid => "Invalid",
            Refusal::TooManyHolds => "TooManyHolds",
            Refusal::NoSpace => "NoSpace",
            Refusal::NameTooLong => "NameTooLong",
        }
    }

    /// The refusal's error number in Linux (`errno`).
    pub fn number(self) -> u16
        ensures known { result ≡ number_of self }
    {
        match self {
            Refusal::NoEntry => 2,
            Refusal::NoMemory => 12,
            Refusal::Access => 13,
            Refusal::Busy => 16,
            Refusal::Exists => 17,
            Refusal::NoDevice => 19,
            Refusal::NotDir => 20,
            Refusal::IsDir => 21,
            Refusal::Invalid => 22,
            Refusal::TooManyHolds => 24,
            Refusal::NoSpace => 28,
            Refusal::NameTooLong => 36,
        }
    }
}

/// A refused request for memory becomes `NoMemory`.
impl From<AllocError> for Refusal {
    ghost from_gives = { λ _ refusal. refusal ≡ NoMemory };

    fn from(_: AllocError) -> Refusal {
        Refusal::NoMemory
    }
}

/// A refused request for memory that returns a value becomes `NoMemory`, and the value is dropped.
impl<T: Drop> From<AllocFailed<T>> for Refusal {
    ghost from_gives = { λ _ refusal. refusal ≡ NoMemory };

    fn from(_: AllocFailed<T>) -> Refusal {
        Refusal::NoMemory
    }
}
