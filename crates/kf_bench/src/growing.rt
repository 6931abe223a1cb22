//! A large subtree that is made and removed.

use crate::clock::now;
use kf_core::{Key, Node, Refusal};
use kf_shared::{Editor, Naming, SharedTree, release_all};
use std::alloc::Global;
use std::sync::Wait;
use std::thread;
use std::time::{Clock, Duration, Instant};

const DIRS: [&[u8]; 3] = [b"dev0", b"dev1", b"dev2"];

const FILES: [&[u8]; 7] = [
    b"attr0", b"attr1", b"attr2", b"attr3", b"attr4", b"attr5", b"attr6",
];

/// Makes ten nodes in a directory. Three of them are directories, and it adds these to the list.
fn fill_one<N: Naming>(
    editor: &mut Editor<'_, N>,
    dirs: &mut Vec<Key>,
    dir: Key,
) -> Result<(), Refusal> {
    for name in DIRS {
        dirs.push(editor.create(dir, name, Node::Dir, true)?)?;
    }
    let file = Node::File {
        mode: 0o666,
        tag: 0,
    };
    for name in FILES {
        editor.create(dir, name, file, true)?;
    }
    Ok(())
}

/// Makes this many tens of nodes below a directory, ten in each directory that it fills.
fn fill<N: Naming>(
    editor: &mut Editor<'_, N>,
    alloc: Global,
    top: Key,
    tens: u32,
) -> Result<(), Refusal> {
    let mut dirs = Vec::new(alloc);
    dirs.push(top)?;
    for ten in 0..tens {
        let Some(dir) = dirs.get(ten as usize) else {
            break;
        };
        let dir = *dir;
        fill_one(editor, &mut dirs, dir)?;
    }
    Ok(())
}

/// Makes a live directory with this many tens of nodes below it, under one lock, and removes it 20 ms later.
/// It returns when the removal began.
pub(crate) fn grow_and_remove<N: Naming, R: Wait + Clock>(
    rt: &R,
    alloc: Global,
    tree: &SharedTree<N>,
    dir: Key,
    tens: u32,
) -> Result<Instant, Refusal> {
    let mut editor = tree.edit(rt);
    let top = editor.create(dir, b"grown", Node::Dir, true)?;
    fill(&mut editor, alloc, top, tens)?;
    drop(editor);
    thread::sleep(rt, Duration::from_millis(20));
    let begun = now(rt)?;
    release_all(tree.edit(rt).remove_key(rt, top)?);
    Ok(begun)
}
