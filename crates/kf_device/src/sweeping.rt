//! Forgetting devices that are gone, no matter who removed them.
//!
//! A device is gone when the files whose callbacks ask for its texts have left the tree. No key is used
//! twice, so nobody asks again. The code here never holds the tree's lock and the lock of the bus together.

use crate::bus::Bus;
use kf_shared::{Naming, SharedTree};
use std::sync::Wait;

impl<N: Naming> Bus<N> {
    /// Forgets a device if it is gone.
    pub(crate) fn forget_gone<R: Wait>(&self, rt: &R, tree: &SharedTree<N>, serial: u64) {
        let nodes = self.devices.lock(rt).nodes(serial);
        let Some(nodes) = nodes else {
            return;
        };
        let linked = nodes.have_files(tree.read(rt).state());
        if !linked {
            self.devices.lock(rt).forget(serial);
        }
    }

    /// Forgets all devices that are gone, if the list has grown to more than twice what the last sweep left.
    /// So with `plug` and `unplug` the list never grows far beyond that, and the cost of a sweep is shared by
    /// the plugs since the last one.
    pub(crate) fn sweep<R: Wait>(&self, rt: &R, tree: &SharedTree<N>) {
        let due = self.devices.lock(rt).due();
        let Some(count) = due else {
            return;
        };
        let mut serial = 0;
        for _ in 0..count {
            let next = self.devices.lock(rt).above(serial);
            match next {
                Some(next) => serial = next,
                None => break,
            }
            self.forget_gone(rt, tree, serial);
        }
        self.devices.lock(rt).swept();
    }
}
