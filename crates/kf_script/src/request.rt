//! What a line asks for.

/// A request, as a line spells it.
///
/// A path or a name is any sequence of bytes without a space: the tree checks it, and says what is wrong with
/// it. A file is the place of its letter in the alphabet, 0 to 25.
#[derive(Clone, Copy)]
pub enum Request<'a> {
    /// `mkdir PATH`, or `mkdir PATH off` for a directory that is not activated.
    MakeDirectory {
        path: &'a [u8],
        is_live: bool,
    },
    /// `file PATH MODE TEXT`, with a mode from 0 to 0o777.
    MakeFile {
        path: &'a [u8],
        mode: u16,
        text: &'a [u8],
    },
    /// `link PATH TARGET`.
    MakeLink {
        path: &'a [u8],
        target: &'a [u8],
    },
    /// `activate PATH`.
    Activate {
        path: &'a [u8],
    },
    /// `ls PATH`.
    ListNames {
        path: &'a [u8],
    },
    /// `stat PATH`.
    Stat {
        path: &'a [u8],
    },
    /// `readlink PATH`.
    ReadLink {
        path: &'a [u8],
    },
    /// `mv PATH DIR NAME`.
    Move {
        path: &'a [u8],
        dir: &'a [u8],
        name: &'a [u8],
    },
    /// `rm PATH`.
    Remove {
        path: &'a [u8],
    },
    /// `open H PATH r|w|rw`.
    OpenFile {
        file: usize,
        path: &'a [u8],
        reads: bool,
        writes: bool,
    },
    /// `read H OFF LEN`: at most LEN bytes from the offset OFF on.
    ReadFile {
        file: usize,
        offset: u64,
        most: usize,
    },
    /// `write H TEXT`.
    WriteFile {
        file: usize,
        text: &'a [u8],
    },
    /// `poll H`.
    PollFile {
        file: usize,
    },
    /// `notify PATH`.
    Notify {
        path: &'a [u8],
    },
    /// `close H`.
    CloseFile {
        file: usize,
    },
    /// `hide PATH`.
    Hide {
        path: &'a [u8],
    },
    /// `show PATH`.
    Show {
        path: &'a [u8],
    },
    /// `commands`.
    CountCommands,
    /// `compact`.
    Compact,
    /// `plug NAME TEXT`.
    Plug {
        name: &'a [u8],
        text: &'a [u8],
    },
    /// `unplug NAME`.
    Unplug {
        name: &'a [u8],
    },
    /// `wait`.
    Wait,
}
