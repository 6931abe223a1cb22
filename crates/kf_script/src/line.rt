//! The line that is being read.

ghost use Rattle.std.specs.Prelude.{◌≡◌, ℕ, List, [], ◌++◌, ◌≤◌, Option, Some, None, true, IfOk, IfSome, length, vec_len, vec_capacity, if◌then◌else◌};
ghost use Rattle.std.specs.Option.{option_map, option_and_then};
ghost use Rattle.kf_script.specs.Lines.{kept_line, line_limit};

use std::alloc::{AllocError, Global};
use std::marker::Model;

/// The length of the longest line that is read as a command, in bytes and without its newline.
pub const LINE_LIMIT: usize = 8192;

/// The line that is being read: its bytes, unless there are more than the limit.
#[derive(Drop)]
pub struct LineBuffer {
    bytes: Vec<u8>,
    is_too_long: bool,
}

impl Model for LineBuffer {
    ghost Value = { Option (List ℕ) };

    ghost view = { λ l. if l.is_too_long then None else Some l.bytes.items };

    ghost invariant = { λ l. (vec_len l.bytes ≤ 8192) × (8192 ≤ vec_capacity l.bytes) };
}

impl LineBuffer {
    /// An empty line.
    pub fn new(alloc: Global) -> Result<LineBuffer, AllocError>
        ensures { IfOk result (λ line. line ≡ Some []) }
    {
        let bytes = Vec::with_capacity(alloc, LINE_LIMIT)?;
        Ok(LineBuffer {
            bytes,
            is_too_long: false,
        })
    }

    /// The line so far, or `None` if it is too long.
    pub fn get(&self) -> Option<&[u8]>
        ensures line { option_map (λ line. line.now) result ≡ self.now }
        ensures fits { IfSome result (λ line. length line.now ≤ line_limit) }
    {
        if self.is_too_long {
            return None;
        }
        Some(self.bytes.as_slice())
    }

    /// Whether it has no bytes yet.
    pub fn is_empty(&self) -> bool
        ensures { result ≡ true → self.now ≡ Some [] }
    {
        !self.is_too_long && self.bytes.is_empty()
    }

    /// Appends bytes. Once the line has more bytes than the limit it is too long, whatever follows.
    pub fn extend(&mut self, bytes: &[u8])
        ensures { self.new ≡ option_and_then (λ line. kept_line (line ++ bytes.now)) self.old }
    {
        if bytes.len() > LINE_LIMIT - self.bytes.len() {
            self.is_too_long = true;
        } else {
            let _ = self.bytes.extend_from_slice(bytes);
        }
    }

    /// Begins the next line.
    pub fn clear(&mut self)
        ensures { self.new ≡ Some [] }
    {
        self.bytes.clear();
        self.is_too_long = false;
    }
}
