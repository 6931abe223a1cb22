//! Two examples without threads, one file each: the plain tree of one owner, and a script over your own
//! board.
#![tactic(auto)]

mod board;
mod tree;

fn main(rt: HostRuntime) -> anyhow::Result<()> {
    tree::start(&rt, rt.alloc())?;
    board::start(&rt, rt.alloc())
}
