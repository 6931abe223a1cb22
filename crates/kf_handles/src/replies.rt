//! What a program's calls do to what is behind its handles, and the numbers that they return.
ghost use Rattle.std.specs.Prelude.{◌≡◌, ◌≢◌, ◌⊎◌, ◌<◌, ◌≤◌, true, false, pos, negsuc, IfSome, IsSome};
ghost use Rattle.kf_handles.specs.Tasks.{IsInUse, IsNotInUse};
ghost use Rattle.kf_handles.specs.Answers.{TreeAnswered, AnsweredBehind, OfTrees, IsAsBefore, ToldWhy, is_change, is_naming};
ghost use Rattle.kf_handles.specs.Calls.{AreLimits, IsNewTree, CreatedIn, HoldsNode, ClaimedIn, IsNothing, is_nothing, key_in, stat_in_c};
ghost use Rattle.kf_handles.specs.Steps.{WakeOwed};
ghost use Rattle.kf_handles.specs.declared.questions.Question.TheVariants as asks;
ghost use Rattle.kf_core.specs.Limits.{most_slots};
ghost use Rattle.kf_core.specs.declared.key.Node.TheVariants as kind;
ghost use Rattle.kf_handles.specs.declared.object.Object.TheVariants as behind;
ghost use Rattle.kf_handles.specs.declared.questions.TreeReply.TheVariants as told;

use crate::answers::ask_object;
use crate::errors::{BUSY, INVALID, NO_MEMORY, error_of};
use crate::handle::{KtGiven, KtHandle};
use crate::object::{Object, Place, Seat};
use crate::questions::{Question, TreeReply};
use crate::telling::is_nothing;
use crate::tree::Tree;
use core::mem::replace;
use kf_core::{Key, Limits, MOST_SLOTS, Node};
use kf_tree::Stat;
use std::alloc::Global;
use std::mem::ManuallyDrop;

/// The key of a node, as C sees it.
#[repr(C)]
#[derive(Clone, Copy)]
pub struct KtKey {
    pub slot: u32,
    pub generation: u32,
}

/// The stat of a node, as C sees it.
#[repr(C)]
#[derive(Clone, Copy)]
pub struct KtStat {
    /// Of a file, the tag with which it was created. Of others 0.
    pub tag: u64,
    /// Of a link, the key of its target. Of others the key 0, 0, which no node has.
    pub target: KtKey,
    /// 0 for a directory, 1 for a file, 2 for a link.
    pub kind: u32,
    /// Of a directory, 2 plus the number of its child directories. Of others 1.
    pub links: u32,
    /// Of a file, its permission bits. Of others 0.
    pub mode: u16,
    pub activated: bool,
    pub doomed: bool,
    pub hidden: bool,
}

/// How many commands a tree stores.
#[repr(C)]
#[derive(Clone, Copy)]
pub struct KtCommands {
    pub stored: u64,
    /// How many it would store after a compaction, at most.
    pub compacted: u64,
}

/// A node's key, as the library sees it.
pub fn key_of(key: KtKey) -> Key
    ensures { result ≡ record { slot = key.slot; generation = key.generation } }
{
    Key {
        slot: key.slot,
        generation: key.generation,
    }
}

/// A node's key, as C sees it.
pub fn told_key(key: Key) -> KtKey
    ensures { result ≡ record { slot = key.slot; generation = key.generation } }
{
    KtKey {
        slot: key.slot,
        generation: key.generation,
    }
}

/// Asks the question, if a tree is behind the handle.
pub fn ask_handle(handle: &mut KtHandle, question: Question<'_>) -> TreeReply
    ensures told { AnsweredBehind question.entry handle.old.place.object handle.new.place.object result }
    ensures beside { handle.new.place.seat ≡ handle.old.place.seat }
{
    ask_object(&mut handle.place_mut().object, question)
}

/// Asks a question whose reply is a key, and writes the key.
fn named(handle: &mut KtHandle, question: Question<'_>, out: &mut KtKey) -> i32
    requires { is_naming question ≡ true }
    ensures done { result ≡ pos 0 → OfTrees (λ old new. TreeAnswered old.master.table question.entry old new
        (told.Named (record { slot = out.new.slot; generation = out.new.generation })))
        handle.old.place.object handle.new.place.object }
    ensures kept { result ≢ pos 0 → IsAsBefore handle.old.place.object handle.new.place.object
        × (out.new ≡ out.old) }
    ensures beside { handle.new.place.seat ≡ handle.old.place.seat }
    ensures why { result ≢ pos 0 →
        ToldWhy question.entry handle.old.place.object handle.new.place.object result }
{
    match ask_handle(handle, question) {
        TreeReply::Named(key) => {
            *out = told_key(key);
            0
        }
        TreeReply::Refused(refusal) => error_of(refusal),
        _ => INVALID,
    }
}

/// Links a new node in a directory, and writes its key.
pub fn create(
    handle: &mut KtHandle,
    parent: KtKey,
    name: &[u8],
    node: Node,
    live: bool,
    out: &mut KtKey,
) -> i32
    ensures created { result ≡ pos 0 →
        CreatedIn handle.old.place.object handle.new.place.object parent name.now node live out.new }
    ensures kept { result ≢ pos 0 → IsAsBefore handle.old.place.object handle.new.place.object
        × (out.new ≡ out.old) }
    ensures beside { handle.new.place.seat ≡ handle.old.place.seat }
    ensures why { result ≢ pos 0 → ToldWhy (asks.Create (key_in parent) name.entry node live)
        handle.old.place.object handle.new.place.object result }
{
    let parent = Key {
        slot: parent.slot,
        generation: parent.generation,
    };
    let question = Question::Create {
        parent,
        name,
        node,
        live,
    };
    named(handle, question, out)
}

/// Links a new file in a directory, and writes its key. The mode must have only permission bits.
pub fn create_file(
    handle: &mut KtHandle,
    parent: KtKey,
    name: &[u8],
    mode: u16,
    tag: u64,
    live: bool,
    out: &mut KtKey,
) -> i32
    ensures created { result ≡ pos 0 → CreatedIn handle.old.place.object handle.new.place.object parent
        name.now (kind.File mode tag) live out.new }
    ensures kept { result ≢ pos 0 → IsAsBefore handle.old.place.object handle.new.place.object
        × (out.new ≡ out.old) }
    ensures beside { handle.new.place.seat ≡ handle.old.place.seat }
    ensures unfit { 511 < mode → result ≡ negsuc 21 }
    ensures why { mode ≤ 511 → result ≢ pos 0 →
        ToldWhy (asks.Create (key_in parent) name.entry (kind.File mode tag) live)
        handle.old.place.object handle.new.place.object result }
{
    if mode > 0o777 {
        return INVALID;
    }
    create(handle, parent, name, Node::File { mode, tag }, live, out)
}

/// Asks for a change that is made at once or refused.
pub fn change(handle: &mut KtHandle, question: Question<'_>) -> i32
    requires { is_change question ≡ true }
    ensures done { result ≡ pos 0 →
        OfTrees (λ old new. TreeAnswered old.master.table question.entry old new told.Done)
        handle.old.place.object handle.new.place.object }
    ensures kept { result ≢ pos 0 → IsAsBefore handle.old.place.object handle.new.place.object }
    ensures beside { handle.new.place.seat ≡ handle.old.place.seat }
    ensures why { result ≢ pos 0
        → ToldWhy question.entry handle.old.place.object handle.new.place.object result }
{
    match ask_handle(handle, question) {
        TreeReply::Done => 0,
        TreeReply::Refused(refusal) => error_of(refusal),
        _ => INVALID,
    }
}

/// The stat of a node, in the form that C sees.
pub fn told_of(stat: Stat) -> KtStat
    ensures { result ≡ stat_in_c stat }
{
    let nowhere = KtKey {
        slot: 0,
        generation: 0,
    };
    let (kind, mode, tag, target) = match stat.node {
        Node::Dir => (0, 0, 0, nowhere),
        Node::File { mode, tag } => (1, mode, tag, nowhere),
        Node::Link { target } => (2, 0, 0, told_key(target)),
    };
    KtStat {
        tag,
        target,
        kind,
        links: stat.links,
        mode,
        activated: stat.activated,
        doomed: stat.doomed,
        hidden: stat.hidden,
    }
}

/// Marks a node and all nodes below it, and claims the node's removal. Returns 0, or 1 if the removal was
/// claimed before.
pub fn claim(handle: &mut KtHandle, key: KtKey) -> i32
    ensures first { result ≡ pos 0 →
        ClaimedIn handle.old.place.object handle.new.place.object key false }
    ensures again { result ≡ pos 1 →
        ClaimedIn handle.old.place.object handle.new.place.object key true }
    ensures kept { result ≢ pos 0 → result ≢ pos 1 →
        IsAsBefore handle.old.place.object handle.new.place.object }
    ensures beside { handle.new.place.seat ≡ handle.old.place.seat }
    ensures why { result ≢ pos 0 → result ≢ pos 1 → ToldWhy
        (asks.Claim (key_in key)) handle.old.place.object handle.new.place.object result }
{
    let question = Question::Claim(key_of(key));
    match ask_handle(handle, question) {
        TreeReply::Done => 0,
        TreeReply::Not => 1,
        TreeReply::Refused(refusal) => error_of(refusal),
        _ => INVALID,
    }
}

/// Puts a seat and an object into a place with nothing in it. If something is there, it drops both and
/// returns -EINVAL.
pub fn put(place: &mut Place, seat: Seat, object: Object) -> i32
    ensures put { result ≡ pos 0 →
        IsNothing place.old × (place.new.seat ≡ seat) × (place.new.object ≡ object) }
    ensures same { result ≢ pos 0 → place.new ≡ place.old }
    ensures room { is_nothing place.old ≡ true → result ≡ pos 0 }
{
    if !place.is_empty() {
        drop(object);
        seat.end();
        return INVALID;
    }
    place.seat = seat;
    place.object = object;
    0
}

/// Takes a hold of a node, and puts it behind a handle with nothing behind it.
pub fn hold(handle: &mut KtHandle, key: KtKey, out: &mut KtHandle) -> i32
    ensures held { result ≡ pos 0 → HoldsNode handle.old.place.object key out.new.place.seat
        × (out.new.place.object ≡ behind.Empty) }
    ensures taken { is_nothing out.old.place ≡ false → result ≡ negsuc 21 }
    ensures was { result ≡ pos 0 → IsNothing out.old.place }
    ensures tree { IsAsBefore handle.old.place.object handle.new.place.object }
    ensures same { result ≢ pos 0 → out.new.place ≡ out.old.place }
    ensures beside { handle.new.place.seat ≡ handle.old.place.seat }
    ensures why { is_nothing out.old.place ≡ true → result ≢ pos 0 →
        ToldWhy (asks.Hold (key_in key)) handle.old.place.object handle.new.place.object result }
{
    if !is_nothing(out) {
        return INVALID;
    }
    let key = key_of(key);
    match ask_handle(handle, Question::Hold(key)) {
        TreeReply::Held(held) => { put(out.place_mut(), Seat::Hold(held), Object::Empty) }
        TreeReply::Refused(refusal) => error_of(refusal),
        _ => INVALID,
    }
}

/// Makes a new handle with nothing behind it.
pub fn make(alloc: Global, out: &mut KtGiven) -> i32
    ensures given { result ≡ pos 0 → IfSome out.new.place IsNothing × IsSome out.new.place }
    ensures refused { result ≢ pos 0 → (result ≡ negsuc 11) × (out.new ≡ out.old) }
{
    match Box::new(alloc, Place::of(Seat::None, Object::Empty)) {
        Ok(boxed) => {
            let given = KtHandle::of(boxed).give();
            let _before = unsafe { ManuallyDrop::new_unchecked(replace(out, given)) };
            0
        }
        Err(_) => NO_MEMORY,
    }
}

/// Makes a new tree with only the root, and with words for the look-ups of this many slots, and puts it
/// behind a handle with nothing behind it.
pub fn make_tree(alloc: Global, handle: &mut KtHandle, slots: u32, holds: u32, looks: u32) -> i32
    ensures made { result ≡ pos 0 → IsNewTree slots holds handle.new.place.object }
    ensures taken { is_nothing handle.old.place ≡ false → result ≡ negsuc 21 }
    ensures was { result ≡ pos 0 → IsNothing handle.old.place }
    ensures same { result ≢ pos 0 → handle.new.place ≡ handle.old.place }
    ensures unlawful { (¬ AreLimits slots holds) → result ≡ negsuc 21 }
    ensures many { most_slots < looks → result ≡ negsuc 21 }
    ensures why { is_nothing handle.old.place ≡ true → AreLimits slots holds → looks ≤ most_slots →
        result ≢ pos 0 → result ≡ negsuc 11 }
{
    if !is_nothing(handle) {
        return INVALID;
    }
    let Some(limits) = Limits::new(slots, holds) else {
        return INVALID;
    };
    if looks > MOST_SLOTS {
        return INVALID;
    }
    let tree = match Tree::new(alloc, limits, looks) {
        Ok(tree) => tree,
        Err(refusal) => return error_of(refusal),
    };
    match Box::new(alloc, tree) {
        Ok(tree) => { put(handle.place_mut(), Seat::None, Object::Tree(tree)) }
        Err(_) => NO_MEMORY,
    }
}

fn end(place: &mut Place) -> i32
    ensures empty { (result ≡ pos 0) ⊎ (result ≡ pos 1)
        → IsNothing place.new × IsNotInUse place.old.object }
    ensures owed { (result ≡ pos 0) ⊎ (result ≡ pos 1) → WakeOwed place.old.seat result }
    ensures busy { result ≢ pos 0 → result ≢ pos 1 →
        (result ≡ negsuc 15) × IsInUse place.old.object × (place.new ≡ place.old) }
{
    if place.is_in_use() {
        return BUSY;
    }
    place.object = Object::Empty;
    if replace(&mut place.seat, Seat::None).end() {
        1
    } else {
        0
    }
}

/// Drops what is behind a handle. Returns 1 if a sleeper may be waiting for that, else 0. Returns -EBUSY and
/// changes nothing in three cases: a tree with a hidden file that somebody may be inside, a gate that is not
/// closed, and a pass that is inside.
pub fn clear(handle: &mut KtHandle) -> i32
    ensures empty { (result ≡ pos 0) ⊎ (result ≡ pos 1) →
        IsNothing handle.new.place × IsNotInUse handle.old.place.object }
    ensures owed { (result ≡ pos 0) ⊎ (result ≡ pos 1) → WakeOwed handle.old.place.seat result }
    ensures busy { result ≢ pos 0 → result ≢ pos 1 → (result ≡ negsuc 15)
        × IsInUse handle.old.place.object × (handle.new.place ≡ handle.old.place) }
{
    end(handle.place_mut())
}

/// Frees a handle and drops what is behind it, as `clear` does. If that is refused, the program still owns
/// the handle.
pub fn delete(handle: KtHandle) -> i32
    ensures gone { (result ≡ pos 0) ⊎ (result ≡ pos 1) → IsNotInUse handle.place.object }
    ensures owed { (result ≡ pos 0) ⊎ (result ≡ pos 1) → WakeOwed handle.place.seat result }
    ensures busy { result ≢ pos 0 → result ≢ pos 1 →
        (result ≡ negsuc 15) × IsInUse handle.place.object }
{
    let mut boxed = handle.into_box();
    let answer = end(boxed.as_mut());
    if answer < 0 {
        let _ = KtHandle::of(boxed).into_pointer();
        return answer;
    }
    drop(boxed);
    answer
}
