//! The bytes of a name, as records, commands and events keep them.

ghost use Rattle.std.specs.Prelude.{◌≡◌, ◌≤◌, ℕ, List, [], length, IsOk, IfOk};

use smallvec::SmallVec;
use std::alloc::{AllocError, Global};
use std::marker::Model;

/// Names of up to this many bytes use no heap memory. Most names of attributes are shorter.
const INLINE: usize = 24;

/// The bytes of a name. Contracts see the list of the bytes. Any bytes are possible; calls that need a lawful
/// name check for it. A name of up to 24 bytes is stored in the value itself, a longer one on the heap.
#[derive(Debug, Drop)]
pub struct NameBytes {
    bytes: SmallVec<u8, INLINE>,
}

impl Model for NameBytes {
    ghost Value = { List ℕ };

    ghost view = { λ name. name.bytes.items };
}

impl NameBytes {
    /// The empty name, which is the root's. It allocates nothing.
    pub fn empty(alloc: Global) -> NameBytes
        ensures empty { result ≡ [] }
    {
        NameBytes {
            bytes: SmallVec::new(alloc),
        }
    }

    /// A copy of these bytes. With up to 24 bytes it always succeeds. With more it allocates, and fails with
    /// `AllocError` if there is no memory.
    pub fn copied(alloc: Global, bytes: &[u8]) -> Result<NameBytes, AllocError>
        ensures same { IfOk result (λ name. name ≡ bytes.now) }
        ensures short { length bytes.now ≤ 24 → IsOk result }
    {
        Ok(NameBytes {
            bytes: SmallVec::from_slice(alloc, bytes)?,
        })
    }

    /// The bytes of the name.
    #[inline(always)]
    pub fn bytes(&self) -> &[u8]
        ensures same { result.now ≡ self.now }
    {
        self.bytes.as_slice()
    }
}

impl Clone for NameBytes {
    ghost is_clone = { λ name copy. copy ≡ name };

    fn clone(&self) -> Result<NameBytes, AllocError> {
        NameBytes::copied(*self.bytes.allocator(), self.bytes())
    }
}
