//! A gate, and what threads do with the node that it makes hot.

ghost use Rattle.std.specs.Prelude.{◌≡◌, IfOk};
ghost use Rattle.kf_core.specs.declared.caller.Phase.TheVariants as phase_of;

use crate::clock::now;
use crate::grown::Bench;
use crate::tasks::{Worker, create, is_over};
use kf_core::{Key, Refusal};
use kf_gates::{Closed, Keeper, Pass};
use kf_hot::{close_gate, close_gates, open_gate, remove_gated};
use kf_shared::{Naming, release_all};
use kf_words::{Call, Hold};
use std::alloc::Global;
use std::sync::atomic::{AtomicU64, Ordering};
use std::sync::{Mutex, Wait};
use std::thread;
use std::time::{Clock, Duration};

/// One lane for each thread of a round.
const LANES: u64 = 4;

/// The gate while it is closed, the pass of each lane while no thread has it, and the number of the last
/// opening.
#[derive(Drop)]
pub(crate) struct Gate {
    closed: Mutex<Option<Closed>>,
    passes: Mutex<Vec<Pass>>,
    number: AtomicU64,
}

impl Gate {
    /// A closed gate, with its passes.
    pub(crate) fn new(alloc: Global) -> Result<Gate, Refusal> {
        let (closed, mut first) = Closed::new(alloc, LANES)?;
        let mut passes = Vec::new(alloc);
        for lane in 1..LANES {
            passes.push(first.another(lane)?)?;
        }
        passes.push(first)?;
        Ok(Gate {
            closed: Mutex::new(Some(closed)),
            passes: Mutex::new(passes),
            number: AtomicU64::new(0),
        })
    }

    /// Makes the hold's node hot.
    pub(crate) fn open<R: Wait>(&self, rt: &R, hold: Hold) -> Result<Keeper<Call>, Refusal>
        ensures running { IfOk result (λ keeper. keeper.kept.phase ≡ phase_of.Running) }
    {
        let Some(closed) = self.closed.lock(rt).take() else {
            hold.release();
            return Err(Refusal::Busy);
        };
        match open_gate(closed, hold) {
            Ok(keeper) => {
                self.number.store(keeper.number(), Ordering::SeqCst);
                Ok(keeper)
            }
            Err((closed, hold)) => {
                hold.release();
                *self.closed.lock(rt) = Some(closed);
                Err(Refusal::NoDevice)
            }
        }
    }

    /// Takes a pass that no thread has.
    fn take_pass<R: Wait>(&self, rt: &R) -> Result<Pass, Refusal> {
        self.passes.lock(rt).pop().ok_or(Refusal::NoSpace)
    }

    fn put_pass<R: Wait>(&self, rt: &R, pass: Pass) -> Result<(), Refusal> {
        self.passes.lock(rt).push(pass)?;
        Ok(())
    }
}

/// Goes in and out through the gate this many times.
pub(crate) fn pass_through<N: Naming, R: Wait>(
    rt: &R,
    bench: &Bench<N>,
    turns: u32,
) -> Result<(), Refusal> {
    let number = bench.gate.number.load(Ordering::SeqCst);
    let mut pass = bench.gate.take_pass(rt)?;
    for _ in 0..turns {
        match pass.enter(number) {
            Ok(call) => pass = call.leave(),
            Err(refused) => {
                bench.gate.put_pass(rt, refused)?;
                return Err(Refusal::NoDevice);
            }
        }
    }
    bench.gate.put_pass(rt, pass)
}

/// Goes in and out through the gate until an attempt to enter is refused.
fn use_up(mut pass: Pass, number: u64) -> Pass {
    for _ in 0..u32::MAX {
        match pass.enter(number) {
            Ok(call) => pass = call.leave(),
            Err(refused) => return refused,
        }
    }
    pass
}

/// Goes through the gate whenever it is open, until the thread that changes the tree has ended.
pub(crate) fn use_hot<N: Naming, R: Wait + Clock>(
    rt: &R,
    bench: &Bench<N>,
    worker: &Worker,
) -> Result<(), Refusal> {
    let mut pass = bench.gate.take_pass(rt)?;
    for _ in 0..worker.task.turns() {
        if is_over(bench) {
            break;
        }
        pass = use_up(pass, bench.gate.number.load(Ordering::SeqCst));
        thread::sleep(rt, Duration::from_micros(20));
    }
    bench.gate.put_pass(rt, pass)
}

/// Removes a hot node together with its gate.
fn remove_with_gate<N: Naming, R: Wait>(
    rt: &R,
    bench: &Bench<N>,
    key: Key,
    keeper: Keeper<Call>,
) -> Result<(), Refusal>
    requires running { keeper.kept.phase ≡ phase_of.Running }
{
    let mut editor = bench.tree.edit(rt);
    let hold = match editor.hold(key) {
        Ok(hold) => hold,
        Err(refusal) => {
            editor.let_go();
            close_gate(rt, keeper).1.release();
            return Err(refusal);
        }
    };
    let Ok(mut gates) = Vec::with_capacity(bench.alloc, 1) else {
        editor.let_go();
        hold.release();
        close_gate(rt, keeper).1.release();
        return Err(Refusal::NoMemory);
    };
    gates.push_reserved(keeper);
    match remove_gated(rt, bench.alloc, editor, hold, gates) {
        Ok((receipts, mut closed)) => {
            release_all(receipts);
            *bench.gate.closed.lock(rt) = closed.pop();
            Ok(())
        }
        Err((hold, gates, refusal)) => {
            hold.release();
            close_gates(rt, gates);
            Err(refusal)
        }
    }
}

/// Creates a file, makes it hot, and removes it a little later. Only the removal is measured.
pub(crate) fn remove_hot<N: Naming, R: Wait + Clock>(
    rt: &R,
    bench: &Bench<N>,
    worker: &mut Worker,
) -> Result<(), Refusal> {
    for _ in 0..worker.task.turns() {
        let key = create(rt, &bench.tree)?;
        let hold = bench.tree.edit(rt).hold(key)?;
        let keeper = bench.gate.open(rt, hold)?;
        thread::sleep(rt, Duration::from_micros(300));
        let begun = now(rt);
        remove_with_gate(rt, bench, key, keeper)?;
        worker.count(rt, begun?)?;
    }
    Ok(())
}
