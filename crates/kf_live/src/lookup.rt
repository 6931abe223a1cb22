//! Looking names up while the tree's owner changes the tree.
ghost use Rattle.std.specs.Prelude.{◌≡◌, true, Some, IfOk, IfErr, IfSome};
ghost use Rattle.kf_core.specs.declared.refusal.Refusal.TheVariants as refusal_of;
ghost use Rattle.kf_looks.specs.Links.{IsLater};
ghost use Rattle.kf_looks.specs.Paths.{led};
ghost use Rattle.kf_looks.specs.Reading.{Stands};
ghost use Rattle.kf_live.specs.Lookers.{links_seen};

use kf_core::{Key, Refusal};
use kf_looks::{FoundAt, LookupTable};
use std::marker::Model;
use std::sync::Arc;

/// A reader that looks names up while the tree's owner changes the tree, without a lock and without waiting.
/// It keeps the words, so it may outlive the tree. Each thread has its own. Contracts see the tree's root,
/// the number of slots with words, and what the looker has seen.
#[derive(Drop)]
pub struct Lookup {
    pub(crate) looks: Arc<LookupTable>,
    pub(crate) root: Key,
    pub(crate) eye: kf_looks::Looker,
}

impl Model for Lookup {
    ghost use Rattle.std.specs.Prelude.{◌≡◌};
    ghost use Rattle.std.specs.Arc.{arc_value};
    ghost use Rattle.kf_live.specs.Lookers.{Onlooker};

    ghost Value = { Onlooker };

    ghost view = { λ s. record { root = s.root; slots = (arc_value s.looks).slots; view = s.eye.seat.me.0 } };

    ghost invariant = { λ s. s.eye.seat.table_id ≡ (arc_value s.looks).table.shared.table_id };
}

impl Lookup {
    /// How many slots have words. Nodes in higher slots are found only in the tree.
    pub fn slots(&self) -> u64
        ensures known { result ≡ self.now.slots }
    {
        self.looks.slots
    }

    /// The live node to which a path leads, as it was at one moment, after all changes that this looker had
    /// seen before. It takes no lock, writes nothing, and waits for nobody.
    ///
    /// None is not a refusal: ask the tree itself. None has one of these causes: a name is longer than 24
    /// bytes or is not there; the words have no line for its node; the path has another form; or a change
    /// came during each try.
    pub fn look(&mut self, path: &[u8]) -> Option<FoundAt>
        ensures root { self.new.root ≡ self.old.root }
        ensures slots { self.new.slots ≡ self.old.slots }
        ensures later { IsLater (links_seen self.new) (links_seen self.old) }
        ensures found { IfSome result
            (λ sight. led (links_seen self.new) self.new.root path.now ≡ Some sight.found) }
        ensures stands { IfSome result (λ sight. Stands self.new.view sight.version
            (λ links. led links self.new.root path.now ≡ Some sight.found)) }
    {
        self.looks.look(&mut self.eye, self.root, path)
    }

    /// Returns, after one load, whether what was found still stands. If so, it stands after all changes that
    /// this looker has seen by then. If not, something was changed since, perhaps another name.
    ///
    /// Condition: `sight` is what the last `look` of this looker returned, for this path. Calls of `again`
    /// may have come after that.
    pub fn again(&mut self, sight: &FoundAt, path: &[u8]) -> bool
        requires stands { Stands self.old.view sight.now.version
            (λ links. led links self.old.root path.now ≡ Some sight.now.found) }
        ensures root { self.new.root ≡ self.old.root }
        ensures slots { self.new.slots ≡ self.old.slots }
        ensures later { IsLater (links_seen self.new) (links_seen self.old) }
        ensures kept { Stands self.new.view sight.now.version
            (λ links. led links self.new.root path.now ≡ Some sight.now.found) }
        ensures found { result ≡ true
            → led (links_seen self.new) self.new.root path.now ≡ Some sight.now.found }
    {
        self.looks.again(&mut self.eye, sight, self.root, path)
    }

    /// Another looker, for another thread. It has seen what this one has seen.
    ///
    /// Refusal: NoMemory, if the words cannot have another owner.
    pub fn another(&mut self) -> Result<Lookup, Refusal>
        ensures root { IfOk result (λ looker. looker.root ≡ self.old.root) }
        ensures slots { IfOk result (λ looker. looker.slots ≡ self.old.slots) }
        ensures told { IfOk result (λ looker. links_seen looker ≡ links_seen self.old) }
        ensures same { self.new ≡ self.old }
        ensures refused { IfErr result (λ refusal. refusal ≡ refusal_of.NoMemory) }
    {
        let looks = Arc::try_clone(&self.looks)?;
        let eye = looks.looker_like(&mut self.eye);
        Ok(Lookup {
            looks,
            root: self.root,
            eye,
        })
    }
}
