//! A looker behind a handle: it looks up paths without the tree's lock, and makes holds of what it finds.
ghost use Rattle.std.specs.Prelude.{IfErr, IfOk};
ghost use Rattle.kf_shared.specs.Locked.{Unchanged};
ghost use Rattle.kf_handles.specs.Lookers.{IsLookerOf, NoLooker};

use kf_core::Refusal;
use kf_live::Lookup;
use kf_shared::{Locked, Naming};
use kf_words::Holds;
use std::alloc::Global;
use std::marker::Model;

/// A looker, by which one thread looks up paths and makes holds. It may outlive the tree.
pub struct TreeLooker {
    pub(crate) looker: Lookup,
    pub(crate) holds: Holds,
}

impl Model for TreeLooker {
    ghost use Rattle.kf_shared.specs.Finding.{PathHolderState};

    ghost Value = { PathHolderState };

    ghost view = { λ l. record { looker = l.looker; holds = l.holds } };
}

impl TreeLooker {
    /// A looker of a tree, which keeps a hold of the root. If it has slots for look-ups, it has now seen all
    /// that the tree says of its live nodes.
    pub fn of<N: Naming>(alloc: Global, locked: &mut Locked<N>) -> Result<TreeLooker, Refusal>
        ensures made { IfOk result (λ looker. IsLookerOf N.table locked.old looker) }
        ensures refused { IfErr result (λ why. NoLooker locked.old locked.new why) }
        ensures same { Unchanged locked.old locked.new }
    {
        let looker = locked.looker()?;
        let root = locked.state().root();
        let by = locked.hold(root)?;
        match Holds::new(alloc, by) {
            Ok(holds) => Ok(TreeLooker { looker, holds }),
            Err((by, refusal)) => {
                by.release();
                Err(refusal)
            }
        }
    }
}

/// Releases the looker's own hold of the root.
impl Drop for TreeLooker {
    fn drop(self) {
        let TreeLooker { looker: _, holds } = self;
        holds.end().release();
    }
}
