//! A part of a reply, which is gathered before it is appended to the reply.

ghost use Rattle.std.specs.Prelude.{◌≡◌, ◌≤◌, ◌<◌, ◌+◌, ◌++◌, ◌∷◌, [], length, IsTrue, ◌↔◌, IfErr, OnOk};
ghost use Rattle.kf_core.specs.declared.refusal.Refusal.TheVariants.{NoMemory};

use kf_core::Refusal;
use kf_script::Reply;
use std::marker::Model;

/// The greatest number of bytes that are gathered.
const MOST: usize = 512;

/// Bytes that are appended to a reply all at once. To append each name of a long listing by itself would take
/// longer than to find the name. Contracts see the bytes.
#[derive(Drop)]
pub(crate) struct Part {
    bytes: [u8; MOST],
    len: usize,
}

impl Model for Part {
    ghost use Rattle.std.specs.Prelude.{ℕ, ◌≤◌, List, take};

    ghost Value = { List ℕ };

    ghost view = { λ part. take part.len part.bytes };

    ghost invariant = { λ part. part.len ≤ 512 };
}

impl Part {
    /// An empty part.
    pub(crate) fn new() -> Part
        ensures empty { result ≡ [] }
    {
        Part {
            bytes: [0; MOST],
            len: 0,
        }
    }

    /// Whether there is room for a byte and a name.
    #[inline(always)]
    pub(crate) fn has_room(&self) -> bool
        ensures known { IsTrue result ↔ (length self.now + 256 ≤ 512) }
    {
        self.len <= MOST - 256
    }

    /// Appends a byte, and then a name.
    #[inline(always)]
    pub(crate) fn push_after(&mut self, first: u8, name: &[u8])
        requires room { length self.old + 256 ≤ 512 }
        requires short { length name.now ≤ 255 }
        ensures pushed { self.new ≡ self.old ++ first ∷ name.now }
    {
        let start = self.len + 1;
        let end = start + name.len();
        self.bytes[self.len] = first;
        self.bytes[start..end].copy_from_slice(name);
        self.len = end;
    }

    /// Appends all bytes to the reply, and empties the part. The only refusal is `NoMemory`. After a refusal
    /// the text of the reply is unknown.
    pub(crate) fn give(&mut self, reply: &mut Reply) -> Result<(), Refusal>
        ensures given { OnOk result (reply.new ≡ reply.old ++ self.old) }
        ensures emptied { self.new ≡ [] }
        ensures refused { IfErr result (λ refusal. refusal ≡ NoMemory) }
    {
        let len = self.len;
        self.len = 0;
        reply.extend(&self.bytes[..len])
    }
}
