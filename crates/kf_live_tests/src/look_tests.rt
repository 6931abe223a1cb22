//! Tests that look-ups find names of 1 to 24 bytes, in words that are full, and along deep paths. No clause
//! says that a look-up finds its node. (`kf_shared_tests` tests that it does so while commands change a
//! tree.)
use crate::fixtures::{FILE, chain, found, key, made, named};
use kf_core::{Key, Node};
use std::alloc::Global;
use std::process::Abort;

const TARGET: Key = Key {
    slot: 9,
    generation: 1,
};

/// Paths of one name, and what stands there. The names take one, two or three words.
const NAMES: [(&[u8], Node); 5] = [
    (b"/a", FILE),
    (b"/abcdefgh", Node::Dir),
    (b"/abcdefghi", FILE),
    (b"/abcdefghijklmnop", Node::Link { target: TARGET }),
    (b"/abcdefghijklmnopqrstuvwx", FILE),
];

/// Asserts that a look-up finds the node at a path of one name.
fn one_name_is_found<R: Abort>(rt: &R, alloc: Global, path: &[u8], node: Node) {
    assert!(rt; 1 <= path.len());
    let name = named(rt, &path[1..]);
    let (looks, writer) = made(rt, alloc, 2);
    let mut writer = chain(rt, &looks, writer, 1, &name, node);
    let mut looker = looks.looker_after(&mut writer);
    let sight = found(rt, &looks, &mut looker, path);
    assert!(rt; sight.found.key == key(1) && sight.found.node == node);
}

#[test]
fn names_of_1_to_24_bytes_are_found(rt: HostRuntime) {
    for (path, node) in NAMES {
        one_name_is_found(&rt, rt.alloc(), path, node);
    }
}

/// Returns how many of `count` names are found. Each name is in a different directory, and there are words
/// only for the slots in use.
fn found_in_full<R: Abort>(rt: &R, alloc: Global, count: u32) -> u32 {
    assert!(rt; count < 1048576);
    let (looks, writer) = made(rt, alloc, count + 1);
    let mut writer = chain(rt, &looks, writer, count, &named(rt, b"name"), FILE);
    let mut looker = looks.looker_after(&mut writer);
    let mut answers = 0u32;
    for slot in 0..count {
        if let Some(sight) = looks.look(&mut looker, key(slot), b"/name") {
            if sight.found.key == key(slot.wrapping_add(1)) {
                answers = answers.saturating_add(1);
            }
        }
    }
    answers
}

#[test]
fn full_words_answer(rt: HostRuntime) {
    assert!(&rt; found_in_full(&rt, rt.alloc(), 63) == 63);
    assert!(&rt; found_in_full(&rt, rt.alloc(), 20_000) >= 19_990);
}

#[test]
fn deep_paths_are_followed(rt: HostRuntime) {
    let (looks, writer) = made(&rt, rt.alloc(), 301);
    let mut writer = chain(&rt, &looks, writer, 300, &named(&rt, b"x"), Node::Dir);
    let mut looker = looks.looker_after(&mut writer);
    let Ok(path) = b"/x".repeat(rt.alloc(), 300) else {
        panic!(&rt; "no memory")
    };
    let sight = found(&rt, &looks, &mut looker, path.as_slice());
    assert!(&rt; sight.found.key == key(300));
}
