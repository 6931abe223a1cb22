//! Chooses the callbacks that serve a file, by its tag.

use crate::script_ops::ScriptOps;
use kf_files::{Fault, Page, WaitOps};
use kf_shared::{Naming, SharedTree};
use kf_words::Call;
use std::sync::Wait;

/// The lowest tag of a device's file. Lower tags are those of the files that scripts make.
pub const FIRST_DEVICE_TAG: u64 = 1 << 63;

/// The callbacks of all files of a run: `texts` serves the files that scripts make, and `devices` serves
/// those of devices.
#[derive(Drop)]
pub struct Serving<'a, W, B> {
    pub texts: &'a W,
    pub devices: &'a B,
}

impl<'a, W: ScriptOps, B: WaitOps<N>, N: Naming> WaitOps<N> for Serving<'a, W, B> {
    ghost use Rattle.kf_workers.specs.Serving.{shown_by, stored_by};

    ghost may_show = { λ serving. shown_by (W.may_show serving.texts.now) (B.may_show serving.devices.now) };

    ghost may_store = { λ serving. stored_by (W.may_store serving.texts.now)
        (B.may_store serving.devices.now) };

    fn show<R: Wait>(
        &self,
        rt: &R,
        tree: &SharedTree<N>,
        call: &mut Call,
        tag: u64,
        page: &mut Page,
    ) -> Result<(), Fault> {
        if tag < FIRST_DEVICE_TAG {
            self.texts.show(rt, tree, call, tag, page)
        } else {
            self.devices.show(rt, tree, call, tag, page)
        }
    }

    fn store<R: Wait>(
        &self,
        rt: &R,
        tree: &SharedTree<N>,
        call: &mut Call,
        tag: u64,
        bytes: &[u8],
    ) -> Result<usize, Fault> {
        if tag < FIRST_DEVICE_TAG {
            self.texts.store(rt, tree, call, tag, bytes)
        } else {
            self.devices.store(rt, tree, call, tag, bytes)
        }
    }
}
