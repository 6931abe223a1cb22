//! As many groups as a driver may declare, and a group with as many attributes.
ghost use Rattle.std.specs.Prelude.{◌≡◌};

use super::tests::ROOT;
use crate::fixtures::made;
use kf_core::Refusal;
use kf_groups::{Attribute, Group, create_group, create_groups, remove_group, remove_groups};
use kf_shared::{Naming, NewTree, SharedTree};
use std::alloc::Global;
use std::marker::Brand;
use std::process::Abort;
use std::sync::Wait;

/// Each letter names one of the groups, and one of the attributes of the large group.
const LETTERS: &[u8; 40] = b"0123456789abcdefghijklmnopqrstuvwxyzABCD";

/// How many live nodes the root has.
fn count<N: Naming, R: Wait>(rt: &R, tree: &SharedTree<N>) -> Result<usize, Refusal> {
    Ok(tree.read(rt).state().list(ROOT, None, 100)?.len())
}

/// Makes forty groups of one file each, and removes them.
fn forty_groups<N: Naming, R: Wait>(
    rt: &R,
    alloc: Global,
    tree: &SharedTree<N>,
) -> Result<bool, Refusal> {
    let attributes = [Attribute::read_only(b"a", 1)];
    let mut groups = Vec::new(alloc);
    for name in LETTERS.chunks(1) {
        groups.push(Group::new(Some(name), &attributes))?;
    }
    create_groups(&mut tree.edit(rt), ROOT, &groups)?;
    let made = count(rt, tree)?;
    remove_groups(rt, tree, alloc, ROOT, &groups)?;
    Ok(made == 40 && count(rt, tree)? == 0)
}

/// Makes a group of forty files, and removes it.
fn forty_attributes<N: Naming, R: Wait>(
    rt: &R,
    alloc: Global,
    tree: &SharedTree<N>,
) -> Result<bool, Refusal> {
    let mut attributes = Vec::new(alloc);
    for name in LETTERS.chunks(1) {
        attributes.push(Attribute::read_only(name, 1))?;
    }
    let group = Group::new(None, &attributes);
    create_group(&mut tree.edit(rt), ROOT, &group)?;
    let made = count(rt, tree)?;
    remove_group(rt, tree, alloc, ROOT, &group)?;
    Ok(made == 40 && count(rt, tree)? == 0)
}

fn forty<N: Naming, R: Abort + Wait>(rt: &R, alloc: Global, new: NewTree) -> Result<(), Refusal>
    requires { new.master.table ≡ N.table }
{
    let tree = new.named::<N>();
    assert!(rt; forty_groups(rt, alloc, &tree)?);
    assert!(rt; forty_attributes(rt, alloc, &tree)?);
    Ok(())
}

#[test]
fn forty_groups_and_a_group_of_forty_attributes(rt: HostRuntime) -> Result<(), Refusal> {
    forty::<Brand, _>(&rt, rt.alloc(), made(&rt, rt.alloc(), 100, 9))
}
