//! A tree with the event numbers of its slots and the tokens of its hidden files.
ghost use Rattle.std.specs.Prelude.{◌≡◌, ◌≤◌, ◌⊎◌, None, true, false, IfErr, IfOk, replicate};
ghost use Rattle.kf_core.specs.Limits.{most_slots};
ghost use Rattle.kf_core.specs.declared.refusal.Refusal.TheVariants as refusal_of;
ghost use Rattle.kf_notify.specs.PostStates.{IsNewPost};
ghost use Rattle.kf_tree.specs.TreeLogs.{IsNew};
ghost use Rattle.kf_words.specs.Steps.{opened};
ghost use Rattle.kf_handles.specs.Tasks.{Stepped};
ghost use Rattle.kf_handles.specs.Answers.{TreeAnswered};
ghost use Rattle.kf_handles.specs.Hiding.{HasHiding, HasNoHiding};
ghost use Rattle.kf_handles.specs.Kept.{AreTokensOf};
ghost use Rattle.kf_handles.specs.Lookers.{IsLookerOf, NoLooker};
ghost use Rattle.kf_shared.specs.Locked.{Unchanged};

use crate::answers::answer;
use crate::hiding::{hide, unhide};
use crate::questions::{Question, Task, TreeReply};
use crate::removal::remove;
use crate::token::Token;
use crate::tokens::{has_hiding, no_tokens};
use crate::tree_looker::TreeLooker;
use kf_core::{Limits, Refusal};
use kf_notify::{Post, Posts};
use kf_shared::{Locked, Naming, NewTree, SharedTree};
use kf_tree::State;
use std::alloc::Global;
use std::marker::{Brand, Model};

/// A tree, the event numbers of its slots, and for each slot the token of its file, if the file is hidden.
#[derive(Drop)]
pub struct Tree {
    nodes: NewTree,
    posts: Posts,
    hidden: Vec<Option<Token>>,
}

impl Model for Tree {
    ghost use Rattle.kf_handles.specs.Kept.{TreeKept, AreTokensOf};

    ghost Value = { TreeKept };

    ghost view = { λ t. record { nodes = t.nodes; posts = t.posts; hidden = t.hidden.items } };

    ghost invariant = { λ t. AreTokensOf t.nodes.master.table t.hidden.items };
}

impl Tree {
    /// A new tree with only the root, and with words for the look-ups of this many slots.
    pub fn new(alloc: Global, limits: Limits, looks: u32) -> Result<Tree, Refusal>
        requires { looks ≤ most_slots }
        ensures tree { IfOk result
            (λ tree. IsNew limits.slots (record { slot = 0; generation = 1 }) tree.nodes.state) }
        ensures words { IfOk result (λ tree. tree.nodes.master.view ≡ opened limits.holds limits.slots 0) }
        ensures posts { IfOk result (λ tree. (tree.posts.slots ≡ limits.slots) × (tree.posts.start ≡ 1)) }
        ensures hidden { IfOk result (λ tree. tree.hidden ≡ replicate limits.slots None) }
        ensures refused { IfErr result (λ why. why ≡ refusal_of.NoMemory) }
    {
        let nodes = SharedTree::<Brand>::with_looks(alloc, limits, 0, looks)?;
        let posts = Posts::new(alloc, limits.slots())?;
        let hidden = no_tokens(alloc, limits.slots())?;
        Ok(Tree {
            nodes,
            posts,
            hidden,
        })
    }

    /// The tree with its stored commands.
    pub fn state(&self) -> &State
        ensures { result.now ≡ self.now.nodes.state }
    {
        self.nodes.state()
    }

    /// A new post of a slot.
    pub fn post(&mut self, slot: u32) -> Result<Post, Refusal>
        ensures same { self.new ≡ self.old }
        ensures made { IfOk result (λ post. IsNewPost self.old.posts slot post) }
        ensures refused { IfErr result (λ why.
            ((self.old.posts.slots ≤ slot) × (why ≡ refusal_of.NoEntry)) ⊎ (why ≡ refusal_of.NoMemory)) }
    {
        if slot >= self.posts.slots() {
            return Err(Refusal::NoEntry);
        }
        self.posts.post(slot)
    }

    /// Whether somebody may be inside a hidden file.
    pub fn is_hiding(&self) -> bool
        ensures hiding { result ≡ true → HasHiding self.now.hidden }
        ensures none { result ≡ false → HasNoHiding self.now.hidden }
    {
        has_hiding(self.hidden.as_slice())
    }

    /// A looker of the tree.
    pub fn looker(&mut self, alloc: Global) -> Result<TreeLooker, Refusal>
        ensures made { IfOk result (λ looker. IsLookerOf self.old.nodes.master.table self.old.nodes looker) }
        ensures refused { IfErr result (λ why. NoLooker self.old.nodes self.new.nodes why) }
        ensures nodes { Unchanged self.old.nodes self.new.nodes }
        ensures posts { self.new.posts ≡ self.old.posts }
        ensures hidden { self.new.hidden ≡ self.old.hidden }
    {
        looker_named::<Brand>(&mut self.nodes, alloc)
    }

    /// Asks the tree a question, in place.
    pub fn ask(&mut self, question: Question<'_>) -> TreeReply
        ensures told { TreeAnswered self.old.nodes.master.table question.entry self.old.nodes self.new.nodes
            result }
        ensures posts { self.new.posts ≡ self.old.posts }
        ensures hidden { self.new.hidden ≡ self.old.hidden }
    {
        ask_named::<Brand>(&mut self.nodes, question)
    }

    /// Makes one step of a task that may have to be asked for again.
    pub fn step(&mut self, task: Task) -> TreeReply
        ensures told { Stepped self.old.nodes.master.table task self.old.nodes self.old.hidden self.new.nodes
            self.new.hidden result }
        ensures posts { self.new.posts ≡ self.old.posts }
    {
        step_named::<Brand>(&mut self.nodes, &mut self.hidden, task)
    }
}

/// Asks the nodes a question, with `N` as their name.
fn ask_named<N: Naming>(nodes: &mut NewTree, question: Question<'_>) -> TreeReply
    requires { nodes.old.master.table ≡ N.table }
    ensures told { TreeAnswered nodes.old.master.table question.entry nodes.old nodes.new result }
    ensures table { nodes.new.master.table ≡ nodes.old.master.table }
{
    let locked = nodes.lent::<N>();
    let reply = answer(locked, question);
    let _ = locked.state();
    reply
}

/// A looker of the nodes, with `N` as their name.
fn looker_named<N: Naming>(nodes: &mut NewTree, alloc: Global) -> Result<TreeLooker, Refusal>
    requires { nodes.old.master.table ≡ N.table }
    ensures made { IfOk result (λ looker. IsLookerOf nodes.old.master.table nodes.old looker) }
    ensures refused { IfErr result (λ why. NoLooker nodes.old nodes.new why) }
    ensures same { Unchanged nodes.old nodes.new }
{
    TreeLooker::of(alloc, nodes.lent::<N>())
}

/// Makes one step of a task, in a locked tree and its tokens.
fn step_locked<N: Naming>(
    locked: &mut Locked<N>,
    tokens: &mut Vec<Option<Token>>,
    task: Task,
) -> TreeReply
    requires { AreTokensOf N.table tokens.old.items }
    ensures told { Stepped N.table task locked.old tokens.old.items locked.new tokens.new.items result }
    ensures tokens { AreTokensOf N.table tokens.new.items }
{
    match task {
        Task::Remove(key) => remove(locked, tokens, key),
        Task::Hide(key) => hide(locked, tokens, key),
        Task::Unhide(key) => unhide(locked, tokens, key),
    }
}

/// Makes one step of a task in the nodes and the tokens, with `N` as the nodes' name.
fn step_named<N: Naming>(
    nodes: &mut NewTree,
    hidden: &mut Vec<Option<Token>>,
    task: Task,
) -> TreeReply
    requires table { nodes.old.master.table ≡ N.table }
    requires tokens { AreTokensOf nodes.old.master.table hidden.old.items }
    ensures told { Stepped nodes.old.master.table task nodes.old hidden.old.items nodes.new hidden.new.items
        result }
    ensures table { nodes.new.master.table ≡ nodes.old.master.table }
    ensures tokens { AreTokensOf nodes.old.master.table hidden.new.items }
{
    let locked = nodes.lent::<N>();
    let reply = step_locked(locked, hidden, task);
    let _ = locked.state();
    reply
}
