//! Lawful names: the bytes that may be the name of a node in its directory.

ghost use Rattle.std.specs.Prelude.{◌≡◌, ◌≤◌, ℕ, List, length, None, IsOk, IfOk, IfErr};
ghost use Rattle.std.specs.Option.{unwrap_or};
ghost use Rattle.kf_core.specs.Names.{IsLawfulName, name_fault};

use kf_core::{NameBytes, Refusal};
use std::alloc::{AllocError, Global};
use std::marker::Model;

/// What is wrong with a name, or None if it is lawful. The length is tested first: more than 255 bytes is
/// `NameTooLong`, any other fault is `Invalid`. This allocates nothing.
pub fn name_fault(bytes: &[u8]) -> Option<Refusal>
    ensures first { result ≡ name_fault bytes.now }
{
    if bytes.len() > 255 {
        return Some(Refusal::NameTooLong);
    }
    if bytes.is_empty()
        || bytes.contains(&b'/')
        || bytes.contains(&0)
        || bytes == b".".as_slice()
        || bytes == b"..".as_slice()
    {
        return Some(Refusal::Invalid);
    }
    None
}

/// A lawful name: 1 to 255 bytes without a slash or a zero byte, and neither `.` nor `..`.
/// In contracts it is the list of its bytes.
#[derive(Drop)]
pub struct Name {
    bytes: NameBytes,
}

impl Model for Name {
    ghost Value = { List ℕ };

    ghost view = { λ name. name.bytes };

    ghost invariant = { λ name. IsLawfulName name.bytes };
}

impl Name {
    /// A copy of the bytes, if they are a lawful name. It is refused with what `name_fault` finds,
    /// `NameTooLong` or `Invalid`, and then with `NoMemory` if the copy needs memory and there is none.
    pub fn new(alloc: Global, bytes: &[u8]) -> Result<Name, Refusal>
        ensures made { IfOk result (λ name. name ≡ bytes.now) }
        ensures lawful { IfOk result (λ name. IsLawfulName name) }
        ensures refused { IfErr result (λ refusal.
            refusal ≡ unwrap_or (name_fault bytes.now) Refusal.NoMemory) }
        ensures short { name_fault bytes.now ≡ None → length bytes.now ≤ 24 → IsOk result }
    {
        if let Some(fault) = name_fault(bytes) {
            return Err(fault);
        }
        match Name::of_lawful(alloc, bytes) {
            Ok(name) => Ok(name),
            Err(_) => Err(Refusal::NoMemory),
        }
    }

    /// A copy of bytes that are known to be a lawful name, so they are not tested. It allocates only for more
    /// than 24 bytes, and is refused if there is no memory.
    ///
    /// Condition: the bytes are a lawful name.
    pub fn of_lawful(alloc: Global, bytes: &[u8]) -> Result<Name, AllocError>
        requires lawful { IsLawfulName bytes.now }
        ensures made { IfOk result (λ name. name ≡ bytes.now) }
        ensures short { length bytes.now ≤ 24 → IsOk result }
    {
        Ok(Name {
            bytes: NameBytes::copied(alloc, bytes)?,
        })
    }

    /// The bytes of the name.
    #[inline(always)]
    pub fn bytes(&self) -> &[u8]
        ensures same { result.now ≡ self.now }
        ensures lawful { IsLawfulName result.now }
    {
        self.bytes.bytes()
    }
}

impl Clone for Name {
    ghost is_clone = { λ name copy. copy ≡ name };

    fn clone(&self) -> Result<Name, AllocError> {
        Ok(Name {
            bytes: self.bytes.clone()?,
        })
    }
}
