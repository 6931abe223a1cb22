//! An object that many threads call, built in two ways: with a gate in front of one node, and with twins,
//! which are one node for each thread.
#![tactic(auto)]

mod hot;
mod twins;

fn main(rt: HostRuntime) -> anyhow::Result<()> {
    hot::start(&rt, rt.alloc())?;
    twins::start(&rt, rt.alloc())
}
