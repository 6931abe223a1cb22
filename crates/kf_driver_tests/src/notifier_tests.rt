//! When a callback that notifies raises its event number: after its store, and only if the store succeeded.

use kf_core::Refusal;
use kf_driver::{Notifying, Store};
use kf_files::Fault;
use kf_notify::{Post, Posts};
use std::sync::atomic::{AtomicU64, Ordering};
use std::sync::{Mutex, Wait};

/// A callback that keeps the event number that its post finds during a store. It refuses an empty line.
#[derive(Drop)]
struct Looking<'a, R> {
    rt: &'a R,
    post: Mutex<Post>,
    found: AtomicU64,
}

impl<R: Wait> Store for Looking<'_, R> {
    fn store(&self, bytes: &[u8]) -> Result<(), Fault> {
        let found = self.post.lock(self.rt).now();
        self.found.store(found, Ordering::SeqCst);
        if bytes == b"\n".as_slice() {
            return Err(Fault { number: 22 });
        }
        Ok(())
    }
}

#[test]
fn a_store_notifies_after_it_and_only_if_it_succeeded(rt: HostRuntime) -> Result<(), Refusal> {
    let mut posts = Posts::new(rt.alloc(), 2)?;
    let mut number = posts.post(1)?;
    let looking = Looking {
        rt: &rt,
        post: Mutex::new(posts.post(1)?),
        found: AtomicU64::new(0),
    };
    let notifying = Notifying::new(&rt, looking);
    notifying.notifier.set(posts.post(1)?);
    for before in 1..=3 {
        assert!(&rt; notifying.store(b"on\n").is_ok());
        assert!(&rt; notifying.callbacks.found.load(Ordering::SeqCst) == before);
        assert!(&rt; number.now() == before + 1);
        assert!(&rt; notifying.store(b"\n").is_err());
        assert!(&rt; number.now() == before + 1);
    }
    Ok(())
}
