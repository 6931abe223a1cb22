//! What each part measures: the columns and lines of its tables.

use crate::clock::tenths;
use crate::grown::Bench;
use crate::turns::Turn;
use kf_shared::Naming;
use std::io;
use std::sync::Wait;
use std::thread::Threads;
use std::time::Clock;

/// A line of a table: its name, and the slot of each of its threads.
type Crowd = (&'static str, &'static [u32]);

/// A table: its head, what a thread does in each column, how often it does this in one round, whether another
/// thread changes the tree meanwhile, and the lines.
#[derive(Clone, Copy)]
pub(crate) struct Table {
    head: &'static str,
    columns: &'static [Turn],
    pub(crate) turns: u32,
    pub(crate) beside_changes: bool,
    crowds: &'static [Crowd],
}

const NODES: [Crowd; 7] = [
    ("1 thread", &[1]),
    ("2 threads, one node", &[1, 1]),
    ("4 threads, one node", &[1, 1, 1, 1]),
    ("2 threads, neighbouring nodes", &[1, 2]),
    ("4 threads, neighbouring nodes", &[1, 2, 3, 4]),
    ("2 threads, distant nodes", &[1, 17]),
    ("4 threads, distant nodes", &[1, 17, 33, 49]),
];

const BY_PATH: [Crowd; 5] = [
    ("1 thread", &[65]),
    ("2 threads, own files", &[65, 66]),
    ("4 threads, own files", &[65, 66, 67, 68]),
    ("2 threads, one file", &[65, 65]),
    ("4 threads, one file", &[65, 65, 65, 65]),
];

const ONE_NODE: [Crowd; 3] = [
    ("1 thread", &[1]),
    ("2 threads", &[1, 1]),
    ("4 threads", &[1, 1, 1, 1]),
];

const ONE_FILE: [Crowd; 3] = [
    ("1 thread", &[65]),
    ("2 threads", &[65, 65]),
    ("4 threads", &[65, 65, 65, 65]),
];

const OWN_FILES: [Crowd; 3] = [
    ("1 thread", &[65]),
    ("2 threads", &[65, 66]),
    ("4 threads", &[65, 66, 67, 68]),
];

pub(crate) const WORDS: [Table; 1] = [Table {
    head: "ns a turn                            words   additions      RwLock",
    columns: &[Turn::Enter, Turn::Add, Turn::Lock],
    turns: 1_000_000,
    beside_changes: false,
    crowds: &NODES,
}];

pub(crate) const TREE: [Table; 3] = [
    Table {
        head: "ns a look-up                    without it  each locks",
        columns: &[Turn::Look, Turn::LookLocked],
        turns: 100_000,
        beside_changes: false,
        crowds: &BY_PATH,
    },
    Table {
        head: "beside a thread that changes the tree",
        columns: &[Turn::Look, Turn::LookLocked],
        turns: 100_000,
        beside_changes: true,
        crowds: &BY_PATH,
    },
    Table {
        head: "ns a hold and its release          of keys      locked",
        columns: &[Turn::Pin, Turn::HoldLocked],
        turns: 100_000,
        beside_changes: false,
        crowds: &BY_PATH,
    },
];

pub(crate) const FILES: [Table; 3] = [
    Table {
        head: "ns a read of 4 bytes             own files",
        columns: &[Turn::Read],
        turns: 1_000_000,
        beside_changes: false,
        crowds: &OWN_FILES,
    },
    Table {
        head: "ns an open by path, a read and a close  without it      locked",
        columns: &[Turn::Visit, Turn::VisitLocked],
        turns: 100_000,
        beside_changes: false,
        crowds: &BY_PATH,
    },
    Table {
        head: "beside a thread that changes the tree",
        columns: &[Turn::Visit, Turn::VisitLocked],
        turns: 100_000,
        beside_changes: true,
        crowds: &BY_PATH,
    },
];

/// What threads do if they all use one node, or one file.
pub(crate) const HOT: [Table; 2] = [
    Table {
        head: "ns a turn at one node                words        gate   additions      RwLock         Arc",
        columns: &[Turn::Enter, Turn::Gate, Turn::Add, Turn::Lock, Turn::Clone],
        turns: 1_000_000,
        beside_changes: false,
        crowds: &ONE_NODE,
    },
    Table {
        head: "ns a turn at one file                 hold        open",
        columns: &[Turn::Pin, Turn::Visit],
        turns: 100_000,
        beside_changes: false,
        crowds: &ONE_FILE,
    },
];

/// Prints the nanoseconds of a turn, or a dash if they are not known.
fn print_turn<R: Print>(rt: &R, tenths: Option<u128>) -> io::Result<()> {
    match tenths {
        None => rt.print("           -"),
        Some(tenths) => print!(rt; "{:>10}.{}", tenths / 10, tenths % 10),
    }
}

/// Prints a JSON object on a line: what was done, by how many threads, and the nanoseconds of a turn.
fn print_object<R: Print>(
    rt: &R,
    what: &str,
    threads: usize,
    tenths: Option<u128>,
) -> io::Result<()> {
    match tenths {
        None => println!(rt; "{{\"what\":\"{what}\",\"threads\":{threads},\"ns\":null}}"),
        Some(tenths) => {
            println!(rt;
                "{{\"what\":\"{what}\",\"threads\":{threads},\"ns\":{}.{}}}",
                tenths / 10,
                tenths % 10
            )
        }
    }
}

impl Table {
    /// Measures one column with threads at these slots.
    fn measure<N: Naming + Send + Sync, R: Threads + Wait + Clock + Sync>(
        &self,
        rt: &R,
        bench: &Bench<N>,
        turn: Turn,
        slots: &[u32],
    ) -> anyhow::Result<Option<u128>> {
        Ok(tenths(rt, bench, turn, slots, self.turns, self.beside_changes)?)
    }

    /// Measures each column with each crowd, and prints an object for each figure.
    fn print_objects<N: Naming + Send + Sync, R: Threads + Wait + Clock + Print + Sync>(
        &self,
        rt: &R,
        bench: &Bench<N>,
    ) -> anyhow::Result<()> {
        for turn in self.columns {
            for (_, slots) in self.crowds {
                let found = self.measure(rt, bench, *turn, slots)?;
                print_object(rt, turn.name(), slots.len(), found)?;
            }
        }
        Ok(())
    }

    /// Measures each column with each crowd, and prints the table.
    fn print<N: Naming + Send + Sync, R: Threads + Wait + Clock + Print + Sync>(
        &self,
        rt: &R,
        bench: &Bench<N>,
    ) -> anyhow::Result<()> {
        println!(rt; "{}", self.head)?;
        for (what, slots) in self.crowds {
            print!(rt; "{what:<30}")?;
            for turn in self.columns {
                let found = self.measure(rt, bench, *turn, slots)?;
                print_turn(rt, found)?;
            }
            println!(rt; "")?;
        }
        Ok(())
    }
}

/// Measures these tables, and prints them, or an object for each figure.
pub(crate) fn print_all<N: Naming + Send + Sync, R: Threads + Wait + Clock + Print + Sync>(
    rt: &R,
    bench: &Bench<N>,
    tables: &[Table],
    as_objects: bool,
) -> anyhow::Result<()> {
    for table in tables {
        if as_objects {
            table.print_objects(rt, bench)?;
        } else {
            table.print(rt, bench)?;
        }
    }
    Ok(())
}
