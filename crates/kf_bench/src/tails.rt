//! Measures how long single calls take, undisturbed and while a thread changes the tree: the median, the 99th
//! and the 99.9th percentile, and the slowest.

use crate::grown::Bench;
use crate::hist::Histogram;
use crate::tasks::{Task, Worker, work};
use kf_core::Refusal;
use kf_shared::Naming;
use std::alloc::Global;
use std::sync::Wait;
use std::sync::atomic::Ordering;
use std::thread::{Threads, for_each_mut};
use std::time::Clock;

/// More slots than the 100,000 nodes that come and go need, together with those that stay.
pub(crate) const TAIL_SLOTS: u32 = 120_000;

/// Threads that work at the same time, in one or more rounds. The best round is reported: the one in which
/// the slowest call of the first thread was fastest.
struct Scene {
    what: &'static str,
    rounds: u32,
    tasks: &'static [Task],
}

const SCENES: [Scene; 13] = [
    Scene {
        what: "alone",
        rounds: 3,
        tasks: &[Task::Look],
    },
    Scene {
        what: "beside renames",
        rounds: 3,
        tasks: &[Task::Look, Task::Look, Task::Look, Task::Rename],
    },
    Scene {
        what: "beside 100,000 nodes",
        rounds: 10,
        tasks: &[Task::Look, Task::Look, Task::Look, Task::Grow],
    },
    Scene {
        what: "alone",
        rounds: 3,
        tasks: &[Task::Open],
    },
    Scene {
        what: "beside renames",
        rounds: 3,
        tasks: &[Task::Open, Task::Open, Task::Open, Task::Rename],
    },
    Scene {
        what: "beside 100,000 nodes",
        rounds: 10,
        tasks: &[Task::Open, Task::Open, Task::Open, Task::Grow],
    },
    Scene {
        what: "alone",
        rounds: 3,
        tasks: &[Task::Rename],
    },
    Scene {
        what: "alone",
        rounds: 3,
        tasks: &[Task::Edit],
    },
    Scene {
        what: "beside 3 look-ups",
        rounds: 3,
        tasks: &[Task::Edit, Task::Look, Task::Look, Task::Look],
    },
    Scene {
        what: "nobody uses the file",
        rounds: 3,
        tasks: &[Task::Remove],
    },
    Scene {
        what: "3 threads use the file",
        rounds: 3,
        tasks: &[Task::Remove, Task::Use, Task::Use, Task::Use],
    },
    Scene {
        what: "nobody is inside",
        rounds: 3,
        tasks: &[Task::RemoveHot],
    },
    Scene {
        what: "3 threads are inside",
        rounds: 3,
        tasks: &[Task::RemoveHot, Task::UseHot, Task::UseHot, Task::UseHot],
    },
];

impl Scene {
    /// Makes one round.
    fn play<N: Naming + Send + Sync, R: Threads + Wait + Clock + Sync>(
        &self,
        rt: &R,
        bench: &Bench<N>,
    ) -> Result<Vec<Worker>, Refusal> {
        let mut workers = Vec::new(bench.alloc);
        for task in self.tasks {
            workers.push(Worker::new(bench.alloc, *task)?)?;
        }
        bench.over.store(0, Ordering::SeqCst);
        for_each_mut(
            rt,
            workers.as_mut_slice(),
            4,
            &|_, worker| work(rt, bench, worker),
        );
        for worker in workers.as_slice() {
            worker.result?;
        }
        Ok(workers)
    }

    /// Makes all rounds, and returns the best.
    fn best<N: Naming + Send + Sync, R: Threads + Wait + Clock + Sync>(
        &self,
        rt: &R,
        bench: &Bench<N>,
    ) -> Result<Vec<Worker>, Refusal> {
        let mut best = self.play(rt, bench)?;
        for _ in 1..self.rounds {
            let next = self.play(rt, bench)?;
            if worst_of(&next) < worst_of(&best) {
                best = next;
            }
        }
        Ok(best)
    }
}

/// The slowest call of the first thread.
fn worst_of(workers: &[Worker]) -> u64 {
    match workers.first() {
        Some(worker) => worker.times.worst(),
        None => 0,
    }
}

/// Prints one line for all threads of a scene that had this task.
fn print_task<R: Print>(
    rt: &R,
    alloc: Global,
    what: &str,
    workers: &[Worker],
    task: Task,
) -> anyhow::Result<()> {
    let mut times = Histogram::new(alloc)?;
    let mut locked = 0u64;
    for worker in workers {
        if worker.task == task {
            times.add_all(&worker.times);
            locked = locked.saturating_add(worker.locked);
        }
    }
    let in_10_000 = locked.saturating_mul(10_000) / times.count().max(1);
    print!(rt; "{:<26}{what:<24}", task.name())?;
    times.print(rt)?;
    println!(rt; "{:>8}.{:02} %", in_10_000 / 100, in_10_000 % 100)?;
    Ok(())
}

/// Measures all scenes, and prints a line for each measured task of a scene. (A time includes the reading of
/// the clock.)
pub(crate) fn print_tails<N: Naming + Send + Sync, R: Threads + Wait + Clock + Print + Sync>(
    rt: &R,
    bench: &Bench<N>,
) -> anyhow::Result<()> {
    println!(rt;
        "ns a call{:>51}{:>10}{:>10}{:>11}{:>12}{:>13}",
        "calls", "p50", "p99", "p99.9", "worst", "by the lock"
    )?;
    for scene in &SCENES {
        let workers = scene.best(rt, bench)?;
        let mut last = Task::Use;
        for task in scene.tasks {
            if !task.is_aside() && *task != last {
                print_task(rt, bench.alloc, scene.what, workers.as_slice(), *task)?;
            }
            last = *task;
        }
    }
    Ok(())
}
