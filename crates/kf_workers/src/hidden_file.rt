//! The tokens of hidden files of one tree.

ghost use Rattle.std.specs.Prelude.{◌≡◌};

use kf_core::Key;
use kf_shared::Naming;
use kf_words::Hidden;
use std::marker::{Model, PhantomData};

/// A token that can show a hidden file of the tree with this name again. It must be passed to
/// [`HiddenFile::into_hidden`].
pub struct HiddenFile<N: Naming> {
    hidden: Hidden,
    name: PhantomData<N>,
}

impl<N: Naming> Model for HiddenFile<N> {
    ghost use Rattle.std.specs.Prelude.{◌≡◌};
    ghost use Rattle.kf_words.specs.Callers.{Handle};

    ghost Value = { Handle };

    ghost view = { λ t. t.hidden };

    ghost invariant = { λ t. t.hidden.table ≡ N.table };
}

impl<N: Naming> HiddenFile<N> {
    /// The token of a hidden file of this tree.
    ///
    /// Condition: `hidden` is of this tree's table.
    pub fn new(hidden: Hidden) -> HiddenFile<N>
        requires { hidden.table ≡ N.table }
        ensures { result ≡ hidden }
    {
        HiddenFile {
            hidden,
            name: PhantomData,
        }
    }

    /// The key of the file.
    pub fn key(&self) -> Key
        ensures { result ≡ self.now.key }
    {
        self.hidden.key()
    }

    /// The `Hidden` that it was made from.
    pub fn into_hidden(self) -> Hidden
        ensures same { result ≡ self }
        ensures table { result.table ≡ N.table }
    {
        let HiddenFile { hidden, name: _ } = self;
        hidden
    }
}
