//! Open files of a hot node, in one thread: they work while the gate is open, and are refused afterwards.
ghost use Rattle.std.specs.Prelude.{◌≡◌, true};
ghost use Rattle.kf_core.specs.Phases.{has_reference};

use crate::files::{FILE, GONE, TAG, Text, not_opened, opened_by, post_at, posts_of, reads, tell};
use crate::gates::{another, gate};
use crate::nodes::{create_node, no_counts, opened, remove_by_gate};
use crate::passes::{inside, refused};
use crate::tests::made;
use kf_core::{ActiveCall, Guard, Key};
use kf_files::OpenFile;
use kf_gates::{Closed, Keeper, Pass};
use kf_hot::{HotPass, HotPasses, close_gate};
use kf_notify::{Post, Posts};
use kf_shared::{Naming, NewTree, SharedTree};
use kf_words::Call;
use std::alloc::Global;
use std::marker::Brand;
use std::process::Abort;
use std::sync::Wait;

/// Reads and writes the file, and polls it before and after its slot is notified.
fn use_file<R: Abort>(rt: &R, file: &mut OpenFile<HotPasses>, posts: &mut Posts, key: Key) {
    let mut passes = HotPasses;
    let mut text = Text::new(b"cold");
    assert!(rt; file.poll(&mut passes), "it was never shown");
    reads(rt, file, &mut text, 0, b"cold");
    assert!(rt; text.calls == 1 && text.last == Some((key, TAG)));
    assert!(rt; !file.poll(&mut passes));
    assert!(rt; file.write(&mut passes, &mut text, b"hot") == Ok(3));
    assert!(rt; file.write(&mut passes, &mut text, b"") == Ok(0));
    assert!(rt; text.calls == 2 && text.last == Some((key, TAG)));
    assert!(rt; !file.poll(&mut passes), "a store notifies nobody");
    reads(rt, file, &mut text, 1, b"old"); // the text of the last show
    assert!(rt; text.calls == 2);
    tell(rt, posts, 0);
    assert!(rt; !file.poll(&mut passes), "another slot was notified");
    assert!(rt; tell(rt, posts, key.slot) == 2);
    assert!(rt; file.poll(&mut passes));
    assert!(rt; file.poll(&mut passes), "a poll keeps the number");
    reads(rt, file, &mut text, 0, b"hot");
    assert!(rt; text.calls == 3);
    assert!(rt; !file.poll(&mut passes));
}

/// A pass opens a file of a live node. Closing the file returns the pass and the post, and both can be used
/// again.
fn live<N: Naming, R: Abort + Wait>(rt: &R, alloc: Global, new: NewTree)
    requires { new.master.table ≡ N.table }
{
    let tree = new.named::<N>();
    let key = create_node(rt, &tree, b"hot", FILE);
    let mut posts = posts_of(rt, alloc);
    let (closed, pass) = gate(rt, alloc, 1);
    let keeper = opened(rt, &tree, key, closed);
    let post = post_at(rt, &mut posts, key.slot);
    let mut file = opened_by(rt, HotPass::new(&keeper, pass), post);
    use_file(rt, &mut file, &mut posts, key);
    let (pass, mut post) = file.close();
    assert!(rt; post.now() == 2);
    let mut passes = HotPasses;
    let call = inside(rt, &mut passes, pass);
    assert!(rt; call.key() == key);
    let mut file = opened_by(rt, passes.leave(call), post);
    assert!(rt; file.poll(&mut passes), "a new file was never shown");
    reads(rt, &mut file, &mut Text::new(b"again"), 0, b"again");
    file.close();
    close_gate(rt, keeper).1.release();
}

/// A file that was read while its gate was open, with its callbacks, and a pass and a post for another file.
#[derive(Drop)]
struct Ready {
    file: OpenFile<HotPasses>,
    text: Text,
    pass: HotPass,
    post: Post,
}

/// Opens a file of this slot by one pass of the gate, and reads it. A second pass of the gate is kept for
/// later.
fn read_once<R: Abort>(
    rt: &R,
    keeper: &Keeper<Call>,
    first: Pass,
    posts: &mut Posts,
    slot: u32,
) -> Ready
    requires gate { first.seat.gate ≡ keeper.now.seat.gate }
    ensures gate { result.pass.pass.seat.gate ≡ keeper.now.seat.gate }
{
    let mut first = first;
    let second = another(rt, &mut first, 1);
    let post = post_at(rt, posts, slot);
    let mut file = opened_by(rt, HotPass::new(keeper, first), post);
    let mut text = Text::new(b"warm");
    reads(rt, &mut file, &mut text, 0, b"warm");
    assert!(rt; !file.poll(&mut HotPasses));
    Ready {
        file,
        text,
        pass: HotPass::new(keeper, second),
        post: post_at(rt, posts, slot),
    }
}

/// A read, a write, a poll and an open find that the node is not live, and run no callback. Returns the file,
/// its callbacks, the pass and the post.
fn refuses<R: Abort>(rt: &R, ready: Ready) -> Ready
    ensures seat { result.pass.pass.seat ≡ ready.pass.pass.seat }
{
    let Ready {
        mut file,
        mut text,
        pass,
        post,
    } = ready;
    let mut passes = HotPasses;
    let mut out = [9u8; 4];
    assert!(rt; file.read(&mut passes, &mut text, 0, &mut out) == Err(GONE));
    assert!(rt; out == [9u8; 4]);
    assert!(rt; file.write(&mut passes, &mut text, b"x") == Err(GONE));
    assert!(rt; file.write(&mut passes, &mut text, b"") == Err(GONE));
    assert!(rt; file.poll(&mut passes));
    reads(rt, &mut file, &mut text, 1, b"arm"); // what was shown before needs no live node
    assert!(rt; text.calls == 1);
    let (pass, post) = not_opened(rt, pass, post);
    Ready {
        file,
        text,
        pass,
        post,
    }
}

/// Closes the file. Its pass and the other one are refused, and both posts find the slot's first number.
fn released<R: Abort>(rt: &R, ready: Ready) {
    let Ready {
        file,
        text: _,
        pass,
        mut post,
    } = ready;
    let mut passes = HotPasses;
    let (other, mut own) = file.close();
    assert!(rt; own.now() == 1 && post.now() == 1);
    refused(rt, &mut passes, other);
    refused(rt, &mut passes, pass);
}

/// The pass that was returned opens a file for the gate's next opening. The first file is still refused.
fn opens_next<R: Abort>(rt: &R, keeper: &Keeper<Call>, ready: Ready)
    requires gate { ready.pass.pass.seat.gate ≡ keeper.now.seat.gate }
{
    let Ready {
        file,
        text: _,
        pass,
        post,
    } = ready;
    let mut first = file;
    let mut next = opened_by(rt, HotPass::new(keeper, pass.into_pass()), post);
    reads(rt, &mut next, &mut Text::new(b"next"), 0, b"next");
    assert!(rt; !next.poll(&mut HotPasses));
    assert!(rt; first.poll(&mut HotPasses));
    let (pass, mut post) = first.close();
    assert!(rt; post.now() == 1);
    refused(rt, &mut HotPasses, pass);
}

/// Closes a gate that is shut, at the first attempt, since no refused pass still counts in a lane. Releases
/// the hold.
fn closed_at_once<R: Abort>(rt: &R, keeper: Keeper<Call>) -> Closed
    requires shut { keeper.plan.shut ≡ true }
    requires inside { has_reference keeper.kept.phase ≡ true }
    ensures gate { result.seat ≡ keeper.seat }
{
    match keeper.try_close() {
        Ok((closed, call)) => {
            call.leave().release();
            closed
        }
        Err(_) => panic!(rt; "somebody counts in a lane"),
    }
}

/// A file is refused once its gate is shut, once the gate is closed, and also when the gate is open again for
/// the same node: a new file is needed then.
fn shut<N: Naming, R: Abort + Wait>(rt: &R, alloc: Global, new: NewTree)
    requires { new.master.table ≡ N.table }
{
    let tree = new.named::<N>();
    let key = create_node(rt, &tree, b"hot", FILE);
    let mut posts = posts_of(rt, alloc);
    let (closed, pass) = gate(rt, alloc, 2);
    let mut keeper = opened(rt, &tree, key, closed);
    let ready = read_once(rt, &keeper, pass, &mut posts, key.slot);
    keeper.shut();
    let ready = refuses(rt, ready);
    let closed = closed_at_once(rt, keeper);
    let ready = refuses(rt, ready);
    let keeper = opened(rt, &tree, key, closed);
    let ready = refuses(rt, ready);
    opens_next(rt, &keeper, ready);
    close_gate(rt, keeper).1.release();
}

/// A file is refused once its node was removed through the gate, even when the gate is open for another node.
fn removed<N: Naming, R: Abort + Wait>(rt: &R, alloc: Global, new: NewTree)
    requires { new.master.table ≡ N.table }
{
    let tree = new.named::<N>();
    let counts = no_counts();
    let key = create_node(rt, &tree, b"hot", FILE);
    let mut posts = posts_of(rt, alloc);
    let (closed, pass) = gate(rt, alloc, 2);
    let keeper = opened(rt, &tree, key, closed);
    let ready = read_once(rt, &keeper, pass, &mut posts, key.slot);
    let closed = remove_by_gate(rt, alloc, &tree, key, keeper, &counts);
    assert!(rt; tree.read(rt).state().stat(key).is_err());
    let ready = refuses(rt, ready);
    let other = create_node(rt, &tree, b"hot", FILE);
    let keeper = opened(rt, &tree, other, closed);
    let ready = refuses(rt, ready);
    close_gate(rt, keeper).1.release();
    released(rt, ready);
}

#[test]
fn a_file_of_a_hot_node(rt: HostRuntime) {
    let new = made(&rt, rt.alloc());
    live::<Brand, _>(&rt, rt.alloc(), new);
}

#[test]
fn a_file_whose_gate_is_shut(rt: HostRuntime) {
    let new = made(&rt, rt.alloc());
    shut::<Brand, _>(&rt, rt.alloc(), new);
}

#[test]
fn a_file_whose_hot_node_was_removed(rt: HostRuntime) {
    let new = made(&rt, rt.alloc());
    removed::<Brand, _>(&rt, rt.alloc(), new);
}
