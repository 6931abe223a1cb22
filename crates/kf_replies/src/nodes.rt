//! Replies that report nodes.

ghost use Rattle.std.specs.Prelude.{◌≡◌, IfErr, OnOk};
ghost use Rattle.kf_core.specs.declared.refusal.Refusal.TheVariants.{NoMemory};
ghost use Rattle.kf_script.specs.ReplyText.{names_text};
ghost use Rattle.kf_replies.specs.ReplyParts.{state_of, told_text};

use crate::part::Part;
use kf_core::Refusal;
use kf_script::{NodeState, Reply};
use kf_tree::{Names, Stat};

/// Writes names, separated by single spaces. The only refusal is `NoMemory`. After a refusal the text is
/// unknown.
pub fn tell_names(reply: &mut Reply, names: Names<'_>) -> Result<(), Refusal>
    ensures text { OnOk result (reply.new ≡ names_text names.entry) }
    ensures refused { IfErr result (λ refusal. refusal ≡ NoMemory) }
{
    reply.clear();
    let Some((first, others)) = names.split_first() else {
        return Ok(());
    };
    reply.extend(first.bytes())?;
    let mut part = Part::new();
    let mut later = others;
    'names: while let Some((name, rest)) = later.split_first() {
        if !part.has_room() {
            part.give(reply)?;
        }
        part.push_after(b' ', name.bytes());
        later = rest;
    }
    part.give(reply)
}

/// The state of a node, as `stat` reports it.
fn state_of(stat: &Stat) -> NodeState
    ensures told { result ≡ state_of stat.now }
{
    if stat.doomed {
        return NodeState::Removing;
    }
    if !stat.activated {
        return NodeState::Off;
    }
    if stat.hidden {
        NodeState::Hidden
    } else {
        NodeState::Live
    }
}

/// Writes what `stat` reports of a node: its kind, what a node of this kind has, and its state.
pub fn tell_stat(reply: &mut Reply, stat: &Stat)
    ensures told { reply.new ≡ told_text stat.now }
{
    reply.set_stat(stat.node, stat.subdirs, stat.links, state_of(stat));
}
