//! The parts of a text.

/// A part of a text, like a conversion in a format string of the kernel.
#[derive(Clone, Copy)]
pub enum Part<'a> {
    /// These bytes (`%s`).
    Text(&'a [u8]),
    /// A number in decimal (`%llu`).
    Number(u64),
    /// A number in decimal, with zeros in front to a width of at least this many bytes (`%03llu` for width
    /// 3).
    PaddedNumber { number: u64, width: u8 },
    /// A number in decimal, with a minus in front if it is negative (`%lld`).
    Signed(i64),
    /// A number in base 16, in lower case (`%llx`).
    Hex(u64),
    /// A number in base 16, in lower case, with zeros in front to a width of at least this many bytes
    /// (`%08llx` for width 8).
    PaddedHex { number: u64, width: u8 },
    /// `1` or `0` (`%d` for a `bool`).
    Flag(bool),
    /// The end of a line (`\n`).
    Newline,
}
