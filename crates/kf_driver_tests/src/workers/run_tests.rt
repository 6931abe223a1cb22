//! Runs that no script can show: callbacks that wait, texts that are dropped, few holds.

use crate::workers::waiting::new_waiting;
use kf_core::Limits;
use kf_workers::run_workers;
use std::alloc::Global;
use std::sync::Wait;
use std::sync::atomic::Ordering;
use std::thread::Threads;

/// A script and its replies, on a tree with this many slots and at most this many holds of each node.
#[derive(Clone, Copy)]
struct Run {
    slots: u32,
    holds: u32,
    workers: u32,
    script: &'static [u8],
    replies: &'static [u8],
    /// How many texts are begun, and how many of them are dropped.
    texts: (u64, u64),
}

/// A `stat` gets its reply while a removal waits for a show. The reply says that the file is being removed.
/// If one thread ran the workers one after another, this run would never end well.
const REMOVED: Run = Run {
    slots: 16,
    holds: 100,
    workers: 3,
    script: b"file /x 444 a\nfile /y 666 b\nwait\n@1 open f /x r\n@2 open f /y w\n@3 open f /y w\n\
        @1 read f 0 1\n@2 write f inside\n@2 rm /x\n@3 write f doomed\n@3 stat /x\n@3 write f told\n",
    replies: b"ok 1.1\nok 2.1\nok\nok\nok\nok\na\n6\nok\n6\nfile mode=444 removing\n4\n",
    texts: (2, 0),
};

/// The owner and sixteen workers run at once.
const MET: Run = Run {
    slots: 16,
    holds: 100,
    workers: 16,
    script: b"file /x 444 a\nfile /y 666 b\nwait\nopen f /y w\nwrite f sixteen\nwrite f told\n\
        @1 open f /x r\n@1 read f 0 1\n@2 open f /x r\n@2 read f 0 1\n@3 open f /x r\n@3 read f 0 1\n\
        @4 open f /x r\n@4 read f 0 1\n@5 open f /x r\n@5 read f 0 1\n@6 open f /x r\n@6 read f 0 1\n\
        @7 open f /x r\n@7 read f 0 1\n@8 open f /x r\n@8 read f 0 1\n@9 open f /x r\n@9 read f 0 1\n\
        @10 open f /x r\n@10 read f 0 1\n@11 open f /x r\n@11 read f 0 1\n@12 open f /x r\n\
        @12 read f 0 1\n@13 open f /x r\n@13 read f 0 1\n@14 open f /x r\n@14 read f 0 1\n\
        @15 open f /x r\n@15 read f 0 1\n@16 open f /x r\n@16 read f 0 1\n",
    replies: b"ok 1.1\nok 2.1\nok\nok\n7\n4\nok\na\nok\na\nok\na\nok\na\nok\na\nok\na\nok\na\nok\na\n\
        ok\na\nok\na\nok\na\nok\na\nok\na\nok\na\nok\na\nok\na\n",
    texts: (2, 0),
};

/// A file exists only once its text has been set up.
const LATE: Run = Run {
    slots: 16,
    holds: 100,
    workers: 2,
    script: b"file /g 666 a\nwait\n@1 file /x 666 late\n@2 open g /g w\n@2 write g inside\n@2 open f /x r\n\
        @2 write g told\n",
    replies: b"ok 1.1\nok\nok 2.1\nok\n6\nerr NoEntry 2\n4\n",
    texts: (2, 0),
};

/// The texts of files that are refused are dropped.
const REFUSED: Run = Run {
    slots: 2,
    holds: 100,
    workers: 1,
    script: b"file /a 644 x\nfile /a 644 y\nfile /b 644 z\n",
    replies: b"ok 1.1\nerr Exists 17\nerr NoSpace 28\n",
    texts: (3, 2),
};

/// The text of a file that is gone is dropped once another file has its slot.
const GONE: Run = Run {
    slots: 2,
    holds: 100,
    workers: 1,
    script: b"file /a 644 x\nrm /a\nfile /a 644 y\nrm /a\nwait\n@1 file /b 644 z\n",
    replies: b"ok 1.1\nok\nok 1.2\nok\nok\nok 1.3\n",
    texts: (3, 2),
};

/// A node cannot have more holds than the run allows.
const HELD: Run = Run {
    slots: 16,
    holds: 1,
    workers: 1,
    script: b"file /a 644 x\nopen f /a r\nopen g /a r\n",
    replies: b"ok 1.1\nok\nerr TooManyHolds 24\n",
    texts: (1, 0),
};

/// Holds that boards take without the tree's lock, and holds that are taken under it, count towards the same
/// limit.
const HELD_BY_ALL: Run = Run {
    slots: 16,
    holds: 4,
    workers: 2,
    script: b"mkdir /d\nfile /d/a 644 x\nwait\nopen a /d/a r\nopen b /d/a r\n@1 open a /d/a r\nwait\n\
        @2 open a /d/a r\n@2 open b /d/a r\nwait\n@1 close a\nwait\n@2 open b /d/a r\n",
    replies: b"ok 1.1\nok 2.1\nok\nok\nok\nok\nok\nok\nerr TooManyHolds 24\nok\nok\nok\nok\n",
    texts: (1, 0),
};

const RUNS: [Run; 7] = [REMOVED, MET, LATE, REFUSED, GONE, HELD, HELD_BY_ALL];

fn is_answered<R: Threads + Wait + Sync>(rt: &R, alloc: Global, run: Run) -> bool {
    let Some(limits) = Limits::new(run.slots, run.holds) else {
        return false;
    };
    if run.workers < 1 || run.workers > 16 {
        return false;
    }
    let ops = new_waiting();
    let Ok(text) = run_workers(rt, alloc, &ops, limits, run.workers, run.script) else {
        return false;
    };
    text.as_slice() == run.replies
        && ops.begun.load(Ordering::SeqCst) == run.texts.0
        && ops.let_go.load(Ordering::SeqCst) == run.texts.1
}

#[test]
fn runs_are_answered(rt: HostRuntime) {
    let mut place = 0usize;
    for run in RUNS {
        if !is_answered(&rt, rt.alloc(), run) {
            panic!(&rt; "run {place}");
        }
        place = place.saturating_add(1);
    }
}
