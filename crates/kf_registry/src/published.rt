//! What may be published, and under which paths.
ghost use Rattle.std.specs.Prelude.{◌≡◌, ◌≤◌, MatchResult, IsTrue, length, true};
ghost use Rattle.kf_registry.specs.Names.{name_in};

use crate::lanes::HotEntry;
use arrayvec::ArrayVec;
use kf_core::{Key, Refusal};

/// The greatest length of a path: a slash, and a name of 255 bytes.
pub(crate) const LONGEST: usize = 256;

/// The trait of the values that a registry keeps.
///
/// A value may have to suit the path that it is published under. What that means is the ghost member `suits`,
/// which exists only in proofs. [`Registry::publish`](crate::Registry::publish) requires it, and it holds of
/// each value that is lent or returned. The registry preserves any such property. So a value that is returned
/// from a path was published under that path.
pub trait Published: Drop {
    ghost use Rattle.std.specs.Prelude.{ℕ, Bool, List, true};

    /// Whether this value may be published under this path. Every value may, unless the implementation says
    /// otherwise.
    ghost suits: { List ℕ → Self → Bool } = { λ _ _. true };
}

/// What a place has: a value, or the entry by which a hot value is called.
#[derive(Drop)]
pub(crate) enum Stored<T: Published> {
    Plain(Entry<T>),
    Hot(HotEntry<T>),
}

/// A value in its place, with the path that it was published under and the key of its node.
#[derive(Drop)]
pub(crate) struct Entry<T: Published> {
    pub(crate) path: ArrayVec<u8, 256>,
    pub(crate) key: Key,
    pub(crate) value: T,
    ghost suits_its_path: { T.suits path.items value ≡ true },
}

impl<T: Published> Entry<T> {
    /// The entry of a value that is published under this path. Its node has this key.
    ///
    /// Conditions: the value suits the path, and the path has at most 256 bytes.
    pub(crate) fn new(path: &[u8], key: Key, value: T) -> Entry<T>
        requires suits { T.suits path.now value ≡ true }
        requires fits { length path.now ≤ 256 }
        ensures path { result.path.items ≡ path.now }
        ensures key { result.key ≡ key }
        ensures value { result.value ≡ value }
    {
        Entry {
            path: copy_of(path),
            key,
            value,
        }
    }

    /// Whether this is the value of this key's node, and was published under this path.
    pub(crate) fn is_of(&self, key: Key, path: &[u8]) -> bool
        ensures suits { IsTrue result → T.suits path.now self.now.value ≡ true }
    {
        self.key == key && self.path.as_slice() == path
    }

    /// The value.
    pub(crate) fn into_value(self) -> T
        ensures { result ≡ self.value }
    {
        let Entry {
            path: _,
            key: _,
            value,
        } = self;
        value
    }
}

/// A copy of a path.
///
/// Condition: the path has at most 256 bytes.
pub(crate) fn copy_of(path: &[u8]) -> ArrayVec<u8, 256>
    requires fits { length path.now ≤ 256 }
    ensures same { result.items ≡ path.now }
{
    let mut copy = ArrayVec::<u8, 256>::new();
    match copy.try_extend_from_slice(path) {
        Ok(()) => copy,
        Err(_) => unreachable!(),
    }
}

/// The name in the root to which a path leads.
///
/// Refusals, in order: Invalid (the path is not a slash and a name, or the name begins with a dot),
/// NameTooLong (the name has more than 255 bytes).
pub(crate) fn name_of(path: &[u8]) -> Result<&[u8], Refusal>
    ensures name { MatchResult result (λ name. name_in path.now ≡ Ok name.now)
        (λ why. name_in path.now ≡ Err why) }
{
    match path {
        [b'/', first, ..] if *first != b'.' => {
            if path.len() <= LONGEST {
                Ok(&path[1..])
            } else {
                Err(Refusal::NameTooLong)
            }
        }
        _ => Err(Refusal::Invalid),
    }
}
