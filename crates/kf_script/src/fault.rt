//! Why a run stops.

use std::fmt;
use thiserror::Error;

/// Why a run of a script stopped.
#[derive(Clone, Copy, Debug, Drop, PartialEq, Eq, Error)]
pub enum RunFault {
    /// A call of read failed, too many calls were made, or the script was too long to be read whole.
    Read,
    /// A call of write failed, or took no byte.
    Write,
    /// There was no memory for the run.
    Memory,
}

impl fmt::Display for RunFault {
    fn fmt<W: fmt::Write>(&self, f: &mut fmt::Formatter<W>) -> fmt::Result {
        let text = match self {
            RunFault::Read => "read",
            RunFault::Write => "write",
            RunFault::Memory => "memory",
        };
        f.write_str(text)
    }
}
