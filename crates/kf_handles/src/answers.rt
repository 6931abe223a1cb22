//! What a tree does when it is asked for a change, for a hold, or for the counts of a node.
ghost use Rattle.kf_handles.specs.Answers.{TreeAnswered, AnsweredBehind};

use crate::holds::Held;
use crate::object::Object;
use crate::questions::{Question, TreeReply};
use crate::removal::claim;
use kf_core::Refusal;
use kf_shared::{Locked, Naming};

/// Does what a question asks of the tree, and returns the tree's reply.
pub fn answer<N: Naming>(locked: &mut Locked<N>, question: Question<'_>) -> TreeReply
    ensures { TreeAnswered N.table question.entry locked.old locked.new result }
{
    match question {
        Question::Create {
            parent,
            name,
            node,
            live,
        } => match locked.create(parent, name, node, live) {
            Ok(key) => TreeReply::Named(key),
            Err(refusal) => TreeReply::Refused(refusal),
        },
        Question::Hold(key) => match locked.hold(key) {
            Ok(hold) => TreeReply::Held(Held::new(hold)),
            Err(refusal) => TreeReply::Refused(refusal),
        },
        Question::Activate(key) => match locked.activate(key) {
            Ok(()) => TreeReply::Done,
            Err(refusal) => TreeReply::Refused(refusal),
        },
        Question::Rename { key, dir, name } => match locked.rename(key, dir, name) {
            Ok(()) => TreeReply::Done,
            Err(refusal) => TreeReply::Refused(refusal),
        },
        Question::Compact => match locked.compact() {
            Ok(()) => TreeReply::Done,
            Err(refusal) => TreeReply::Refused(refusal),
        },
        Question::Claim(key) => claim(locked, key),
        Question::Counts(key) => match locked.counts(key) {
            Some(counts) => TreeReply::Counted(counts),
            None => TreeReply::Refused(Refusal::NoEntry),
        },
    }
}

/// Asks the question, if the object is a tree.
pub fn ask_object(object: &mut Object, question: Question<'_>) -> TreeReply
    ensures { AnsweredBehind question.entry object.old object.new result }
{
    match object {
        Object::Tree(tree) => tree.as_mut().ask(question),
        _ => TreeReply::Wrong,
    }
}
