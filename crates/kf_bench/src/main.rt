//! Measures what the parts of the library cost on this machine, at best, in nanoseconds:
//!
//! - `kf_bench words`: calls of nodes.
//! - `kf_bench tree`: look-ups of a path, and holds of files.
//! - `kf_bench files`: reads of files, and opens by their paths.
//! - `kf_bench hot`: what threads do if they all use one node or one file, compared with what could be used
//!   instead. With `--json` it prints an object on each line.
//! - `kf_bench tails`: the slowest calls, undisturbed and while a thread changes the tree.
//! - `kf_bench wait`: four threads wait for a second for a node that is hidden, unused and not marked.
//!   Whoever runs this counts how often they sleep.
//!
//! Without one of these words it does nothing. If a measurement cannot be set up, or if one of its turns
//! fails, it says so and exits with 1.
#![tactic(auto)]

ghost use Rattle.std.specs.Prelude.{◌≡◌, ◌≤◌};

mod clock;
mod files;
mod gates;
mod growing;
mod grown;
mod hist;
mod tables;
mod tails;
mod tasks;
mod turns;
mod waiters;

use anyhow::Context;
use grown::{Bench, LEAF, SLOTS, hold_of};
use kf_core::Limits;
use kf_hot::close_gate;
use kf_shared::{Naming, NewTree, SharedTree};
use std::alloc::Global;
use std::env::{self, Env};
use std::io;
use std::marker::Brand;
use std::sync::Wait;
use std::thread::Threads;
use std::time::Clock;
use tables::{FILES, HOT, TREE, WORDS, print_all};
use tails::{TAIL_SLOTS, print_tails};

/// What is measured.
#[derive(Clone, Copy)]
enum Part {
    Words,
    Tree,
    Files,
    Hot { as_objects: bool },
    Tails,
    Wait,
}

impl Part {
    /// How many slots the tree has.
    fn slots(self) -> u32
        ensures range { result ≤ 1048576 }
    {
        match self {
            Part::Tails => TAIL_SLOTS,
            _ => SLOTS,
        }
    }
}

/// What the program's arguments ask for.
fn asked<R: Env + Alloc>(rt: &R) -> io::Result<Option<Part>> {
    let mut words = env::args(rt)?;
    let _program = words.next();
    let Some(word) = words.next() else {
        return Ok(None);
    };
    let as_objects = match words.next() {
        Some(option) => option.as_str() == "--json",
        None => false,
    };
    Ok(match word.as_str() {
        "words" => Some(Part::Words),
        "tree" => Some(Part::Tree),
        "files" => Some(Part::Files),
        "hot" => Some(Part::Hot { as_objects }),
        "tails" => Some(Part::Tails),
        "wait" => Some(Part::Wait),
        _ => None,
    })
}

/// Measures a part in a tree that was made for it.
fn run<N: Naming + Send + Sync, R: Threads + Wait + Clock + Print + Sync>(
    rt: &R,
    alloc: Global,
    new: NewTree,
    part: Part,
) -> anyhow::Result<()>
    requires { new.master.table ≡ N.table }
{
    let bench = Bench::new(rt, alloc, new.named::<N>())?;
    match part {
        Part::Words => print_all(rt, &bench, &WORDS, false),
        Part::Tree => print_all(rt, &bench, &TREE, false),
        Part::Files => print_all(rt, &bench, &FILES, false),
        Part::Hot { as_objects } => {
            let keeper = bench.gate.open(rt, hold_of(rt, &bench.tree, LEAF)?)?;
            let printed = print_all(rt, &bench, &HOT, as_objects);
            close_gate(rt, keeper).1.release();
            printed
        }
        Part::Tails => print_tails(rt, &bench),
        Part::Wait => Ok(waiters::wait(rt, &bench)?),
    }
}

fn main(rt: HostRuntime) -> anyhow::Result<()> {
    let Some(part) = asked(&rt)? else {
        return Ok(());
    };
    let slots = part.slots();
    let limits = Limits::new(slots, 16).context("these slots and holds are within the limits")?;
    let new = SharedTree::<Brand>::with_looks(rt.alloc(), limits, 0, slots)?;
    run::<Brand, _>(&rt, rt.alloc(), new, part)
}
