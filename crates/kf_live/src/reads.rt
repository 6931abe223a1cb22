//! Calls that change nothing, and return what the same calls on a [`State`] return.
ghost use Rattle.std.specs.Prelude.{◌≡◌, IfOk, IfErr, MatchResult, None, Some, true};
ghost use Rattle.kf_core.specs.PostOrder.{IsPostOrder};
ghost use Rattle.kf_core.specs.Tree.{is_linked};
ghost use Rattle.kf_tree.specs.Causes.{create_fault, doom_cause, linked_cause, unlink_cause, Refuses};
ghost use Rattle.kf_tree.specs.Ends.{EndsWith};
ghost use Rattle.kf_tree.specs.TreeLogs.{IsKept};

use crate::live_tree::LiveTree;
use kf_core::{Key, Node, Refusal};

impl LiveTree {
    /// The root's key, as [`State::root`] returns it.
    pub fn root(&self) -> Key
        ensures known { result ≡ self.now.log.root }
        ensures kept { IsKept self.now.log }
    {
        self.state.root()
    }

    /// Why a creation would be refused now, NoSpace and NoMemory aside, as [`State::create_fault`] says it.
    pub fn create_fault(&self, parent: Key, name: &[u8], node: Node) -> Option<Refusal>
        ensures first { result ≡ create_fault self.now.log.tree self.now.log.root parent name.now node }
    {
        self.state.create_fault(parent, name, node)
    }

    /// Whether a doom would be refused now, lack of memory aside, as [`State::may_doom`] says it.
    pub fn may_doom(&self, key: Key) -> Result<(), Refusal>
        ensures checked { MatchResult result
            (λ _. doom_cause self.now.log.tree self.now.log.root key ≡ None)
            (λ refusal. doom_cause self.now.log.tree self.now.log.root key ≡ Some refusal) }
        ensures kept { IsKept self.now.log }
    {
        self.state.may_doom(key)
    }

    /// What [`LiveTree::unlink`] would return now, as [`State::may_unlink`] says it.
    pub fn may_unlink(&self, key: Key) -> Result<bool, Refusal>
        ensures linked { IfOk result (λ linked. is_linked self.now.log.tree key ≡ linked) }
        ensures no_cause { IfOk result (λ linked. linked ≡ true → unlink_cause self.now.log.tree key ≡ None) }
        ensures refused { IfErr result (λ refusal.
            (is_linked self.now.log.tree key ≡ true) × (unlink_cause self.now.log.tree key ≡ Some refusal)) }
    {
        self.state.may_unlink(key)
    }

    /// The keys of a linked node's subtree in post-order, as [`State::post_order`] returns them.
    pub fn post_order(&self, key: Key) -> Result<Vec<Key>, Refusal>
        ensures linked { IfOk result (λ _. linked_cause self.now.log.tree key ≡ None) }
        ensures ordered { IfOk result (λ keys. IsPostOrder self.now.log.tree key keys.items) }
        ensures last { IfOk result (λ keys. EndsWith keys.items key) }
        ensures refused { IfErr result (λ refusal. Refuses (linked_cause self.now.log.tree key) refusal) }
    {
        self.state.post_order(key)
    }
}
