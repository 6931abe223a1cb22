//! The tags of several lines that are alike.
ghost use Rattle.std.specs.Prelude.{◌≡◌, ◌<◌};

/// The tags of the files of several lines that are alike. Each line has the same number of files, and the
/// tags count up from `first`.
#[derive(Clone, Copy)]
pub struct LineTags {
    pub(crate) first: u32,
    pub(crate) files: u32,
    ghost some: { 0 < files },
}

impl LineTags {
    /// Makes tags from `first` on, for lines with this many files each.
    ///
    /// Condition: a line has at least one file.
    pub const fn new(first: u32, files: u32) -> LineTags
        requires some { 0 < files }
        ensures first { result.first ≡ first }
        ensures files { result.files ≡ files }
    {
        LineTags { first, files }
    }
}
