//! Callbacks of a test, which count how often they are called.
ghost use Rattle.std.specs.Prelude.{◌≡◌, true};
ghost use Rattle.kf_core.specs.Phases.{has_reference};
ghost use Rattle.kf_core.specs.declared.caller.Phase.TheVariants.{Running};
ghost use Rattle.kf_words.specs.Callers.{IsSameSeat};

use kf_files::{Fault, Page, WaitBinaryOps, WaitOps};
use kf_shared::{Naming, SharedTree, release_all};
use kf_words::Call;
use std::sync::Wait;
use std::sync::atomic::{AtomicU64, Ordering};

/// What callbacks do and return. Unless a variant says otherwise, each takes and gives all bytes.
#[derive(Clone, Copy)]
pub(crate) enum Plan {
    /// A show fills its page with this.
    Shows(&'static [u8]),
    /// A store returns this number. A read or write of a binary attribute returns it, too, but at most the
    /// number of bytes asked for or given.
    Takes(usize),
    /// All callbacks fail with this number, and a show does so after it has filled something.
    Faults(u16),
    /// A show fills its page with this, and then removes its own node.
    Leaves(&'static [u8]),
}

#[derive(Drop)]
pub(crate) struct Driver {
    plan: Plan,
    /// How often any callback was called.
    pub(crate) calls: AtomicU64,
}

pub(crate) fn driver_of(plan: Plan) -> Driver {
    Driver {
        plan,
        calls: AtomicU64::new(0),
    }
}

fn removes_itself<N: Naming, R: Wait>(rt: &R, tree: &SharedTree<N>, call: &mut Call)
    requires table { call.old.table ≡ N.table }
    requires running { call.old.phase ≡ Running }
    ensures seat { IsSameSeat call.old call.new }
    ensures reference { has_reference call.new.phase ≡ true }
{
    match tree.remove_self(rt, call) {
        Ok((_, receipts)) => release_all(receipts),
        Err(_) => {}
    }
}

impl Driver {
    // What a callback that is given or asked for this many bytes returns.
    fn answers(&self, count: usize) -> Result<usize, Fault> {
        match self.plan {
            Plan::Faults(number) => Err(Fault { number }),
            Plan::Takes(taken) => Ok(taken),
            Plan::Shows(_) | Plan::Leaves(_) => Ok(count),
        }
    }
}

impl<N: Naming> WaitOps<N> for Driver {
    ghost may_show = { λ _ _ _. Unit {0} };

    ghost may_store = { λ _ _ _ _. Unit {0} };

    fn show<R: Wait>(
        &self,
        rt: &R,
        tree: &SharedTree<N>,
        call: &mut Call,
        _tag: u64,
        page: &mut Page,
    ) -> Result<(), Fault> {
        self.calls.fetch_add(1, Ordering::SeqCst);
        let text: &[u8] = match self.plan {
            Plan::Shows(text) | Plan::Leaves(text) => text,
            Plan::Takes(_) | Plan::Faults(_) => b"lost",
        };
        let _ = page.try_extend_from_slice(text);
        match self.plan {
            Plan::Leaves(_) => removes_itself(rt, tree, call),
            Plan::Faults(number) => return Err(Fault { number }),
            Plan::Shows(_) | Plan::Takes(_) => {}
        }
        Ok(())
    }

    fn store<R: Wait>(
        &self,
        _rt: &R,
        _tree: &SharedTree<N>,
        _call: &mut Call,
        _tag: u64,
        bytes: &[u8],
    ) -> Result<usize, Fault> {
        self.calls.fetch_add(1, Ordering::SeqCst);
        self.answers(bytes.len())
    }
}

impl<N: Naming> WaitBinaryOps<N> for Driver {
    ghost may_read_at = { λ _ _ _ _ _. Unit {0} };

    ghost may_write_at = { λ _ _ _ _ _. Unit {0} };

    fn read_at<R: Wait>(
        &self,
        _rt: &R,
        _tree: &SharedTree<N>,
        _call: &mut Call,
        _tag: u64,
        _offset: u64,
        out: &mut [u8],
    ) -> Result<usize, Fault> {
        self.calls.fetch_add(1, Ordering::SeqCst);
        Ok(self.answers(out.len())?.min(out.len()))
    }

    fn write_at<R: Wait>(
        &self,
        _rt: &R,
        _tree: &SharedTree<N>,
        _call: &mut Call,
        _tag: u64,
        _offset: u64,
        bytes: &[u8],
    ) -> Result<usize, Fault> {
        self.calls.fetch_add(1, Ordering::SeqCst);
        Ok(self.answers(bytes.len())?.min(bytes.len()))
    }
}
