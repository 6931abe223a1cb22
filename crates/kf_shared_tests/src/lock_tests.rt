//! A caller that locks the tree and unlocks it, with no other call in between, changes nothing.
ghost use Rattle.std.specs.Prelude.{◌≡◌};

use crate::fixtures::{FILE, made};
use kf_core::{Key, Node, Refusal};
use kf_shared::{Editor, Naming, NewTree};
use std::marker::Brand;
use std::process::Abort;
use std::sync::Wait;

/// How many times the tree is locked and unlocked.
const TIMES: u32 = 10;

/// How many commands are stored, and whether each of the two nodes is activated.
fn seen<N: Naming>(
    editor: &Editor<'_, N>,
    dir: Key,
    file: Key,
) -> Result<(usize, bool, bool), Refusal> {
    let state = editor.state();
    Ok((
        editor.stored(),
        state.stat(dir)?.activated,
        state.stat(file)?.activated,
    ))
}

/// A directory and its file are not activated. They stay so, and no further command is stored.
fn changes_nothing<N: Naming, R: Abort + Wait>(rt: &R, new: NewTree) -> Result<(), Refusal>
    requires { new.master.table ≡ N.table }
{
    let tree = new.named::<N>();
    let mut editor = tree.edit(rt);
    let root = editor.state().root();
    let dir = editor.create(root, b"t", Node::Dir, false)?;
    let file = editor.create(dir, b"a", FILE, false)?;
    let (stored, _, _) = seen(&editor, dir, file)?;
    editor.let_go();
    for _ in 0..TIMES {
        tree.edit(rt).let_go();
    }
    let (later, dir_active, file_active) = seen(&tree.edit(rt), dir, file)?;
    assert!(rt; stored == 2 && later == stored);
    assert!(rt; !dir_active && !file_active);
    Ok(())
}

#[test]
fn locking_and_unlocking_change_nothing(rt: HostRuntime) -> Result<(), Refusal> {
    changes_nothing::<Brand, _>(&rt, made(&rt, rt.alloc(), 16))
}
