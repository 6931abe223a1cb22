//! Three uses of a tree that threads share, each in its own file: a removal that waits, an open file with
//! your own callbacks, and devices on a bus.
#![tactic(auto)]

mod device;
mod file;
mod removal;

fn main(rt: HostRuntime) -> anyhow::Result<()> {
    removal::start(&rt, rt.alloc())?;
    file::start(&rt, rt.alloc())?;
    device::start(&rt, rt.alloc())
}
