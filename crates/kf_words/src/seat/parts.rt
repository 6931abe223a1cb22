//! How a seat is made, moved and ended, field by field, and its key and node.
ghost use Rattle.std.specs.Prelude.{◌≡◌, ◌*◌, ◌<◌, ◌≤◌, None, []};
ghost use Rattle.std.specs.Arc.{arc_value};
ghost use Rattle.kf_core.specs.declared.caller.Phase.TheVariants as phase_of;
ghost use Rattle.kf_words.specs.Callers.{node_of, handle_of, view_of};
ghost use Rattle.kf_words.specs.Layout.{line_words};
ghost use Rattle.kf_words.specs.Steps.{caller_of, plain};
ghost use Rattle.kf_words.specs.declared.view.View.TheVariants as seat_of;

use crate::seat::{CallerSeat, NodeKind};
use crate::sight::Sight;
use crate::table::WordTable;
use atomic_table::Seat;
use kf_core::{Key, Node};
use std::sync::Arc;

impl CallerSeat {
    /// Makes the first seat of a new hold.
    pub(crate) fn new(
        table: Arc<WordTable>,
        key: Key,
        node: Node,
        most: u32,
        token: Seat<(), Sight>,
    ) -> CallerSeat
        requires table { token.table_id ≡ (arc_value table).shared.table_id }
        requires caller { plain token.me ≡ (seat_of.Caller (caller_of token.me.0.view), []) }
        requires key { (caller_of token.me.0.view).key ≡ key }
        requires words { (arc_value table).shared.table_id.words
            ≡ (arc_value table).shared.key.slots * line_words }
        requires slot { key.slot < (arc_value table).shared.key.slots }
        requires limit { (arc_value table).shared.key.holds ≡ most }
        requires few { most ≤ 65535 }
        requires single { (caller_of token.me.0.view).pinning ≡ None }
        ensures token { result.token ≡ token }
        ensures node { (handle_of result).node ≡ node }
    {
        let (kind, tag, target) = parts_of(node, key);
        CallerSeat {
            table,
            key,
            kind,
            most,
            tag,
            target,
            token,
        }
    }

    /// The key whose slot it holds.
    pub(crate) fn key(&self) -> Key
        ensures { result ≡ self.now.key }
    {
        self.key
    }

    /// The node that was born with the key.
    pub(crate) fn node(&self) -> Node
        ensures { result ≡ node_of self.now.kind self.now.tag self.now.target }
    {
        match self.kind {
            NodeKind::Dir => Node::Dir,
            NodeKind::File { mode } => Node::File {
                mode,
                tag: self.tag,
            },
            NodeKind::Link => Node::Link {
                target: self.target,
            },
        }
    }

    /// Returns the same seat, moved field by field. So it stays in registers from one atomic step to the
    /// next.
    pub(crate) fn moved(self) -> CallerSeat
        ensures same { result ≡ self }
    {
        let CallerSeat {
            tag,
            table,
            target,
            key,
            kind,
            most,
            token,
        } = self;
        CallerSeat {
            tag,
            table,
            target,
            key,
            kind,
            most,
            token,
        }
    }

    /// Ends the seat like `end_to_owner`, and drops its owner.
    pub(crate) fn end(self)
        requires { (view_of self).phase ≡ phase_of.Spent }
    {
        let _owner = self.end_to_owner();
    }
}

/// The kind, tag and target of a node. If it has no tag, the tag is 0. If it has no target, the target is the
/// node's key.
fn parts_of(node: Node, key: Key) -> (NodeKind, u64, Key)
    ensures { node_of result.0 result.1 result.2 ≡ node }
{
    match node {
        Node::Dir => (NodeKind::Dir, 0, key),
        Node::File { mode, tag } => (NodeKind::File { mode }, tag, key),
        Node::Link { target } => (NodeKind::Link, 0, target),
    }
}
