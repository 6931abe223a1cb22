//! Why the bytes of a store could not be read.
ghost use Rattle.std.specs.Prelude.{◌≡◌};
ghost use Rattle.kf_text.specs.Readings.{number_of};

/// Why the bytes of a store could not be read.
#[derive(Clone, Copy, Debug, PartialEq, Eq)]
pub enum NotRead {
    /// They do not spell what was to be read (`EINVAL`).
    Invalid,
    /// They are a number that is out of range (`ERANGE`).
    Range,
}

impl NotRead {
    /// The kernel's error number for it: 22 or 34.
    pub fn number(self) -> u16
        ensures known { result ≡ number_of self }
    {
        match self {
            NotRead::Invalid => 22,
            NotRead::Range => 34,
        }
    }
}
