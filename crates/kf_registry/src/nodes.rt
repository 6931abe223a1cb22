//! The nodes of values: how they are created, and how a hot one is recognized.
ghost use Rattle.std.specs.Prelude.{◌↔◌, IfErr, IfOk, IsTrue};
ghost use Rattle.kf_shared.specs.Locked.{Adds};
ghost use Rattle.kf_registry.specs.Receipts.{IsHot, stands};
ghost use Rattle.kf_registry.specs.Refusals.{StandCause};

use kf_core::{Key, Node, Refusal};
use kf_shared::{Editor, Naming};
use kf_tree::State;

/// The node of a value that is not hot.
pub(crate) const VALUE: Node = Node::File { mode: 0, tag: 0 };

/// The node of a hot value.
pub(crate) const HOT: Node = Node::File { mode: 0, tag: 1 };

/// Creates a live node in the root.
///
/// Refusals: those of [`Editor::create`]. Then nothing is changed.
pub(crate) fn create_node<N: Naming>(
    editor: &mut Editor<'_, N>,
    name: &[u8],
    node: Node,
) -> Result<Key, Refusal>
    ensures noted { IfOk result (λ key.
        Adds editor.old editor.new (stands node editor.old.state.root key name.now)) }
    ensures refused { IfErr result (λ why.
        StandCause name.now node why editor.old.state.tree editor.old.state.root) }
{
    let root = editor.state().root();
    match editor.create(root, name, node, true) {
        Ok(key) => Ok(key),
        Err(why) => Err(why),
    }
}

/// Whether the value of this key is hot.
pub(crate) fn is_hot(state: &State, key: Key) -> bool
    ensures hot { IsTrue result ↔ IsHot state.now.tree key }
{
    match state.stat(key) {
        Ok(stat) => stat.node == HOT,
        Err(_) => false,
    }
}
