//! What an attribute shows and what it stores.
ghost use Rattle.std.specs.Prelude.{◌≡◌, ◌<◌, ◌≤◌, ℕ, Bool, true, false, List, [], length, Result, Err};
ghost use Rattle.kf_pages.specs.declared.ops.Fault.{Fault};
ghost use Rattle.kf_pages.specs.Files.{filled_by};
ghost use Rattle.kf_driver.specs.Tables.{no_callback};

use kf_files::{Fault, Page};

/// The fault of a show or a store for which there is no callback (`EIO`).
const NO_CALLBACK: Fault = Fault { number: 5 };

/// What an attribute shows (`show` of `struct device_attribute`). Any number of threads may call it at once.
/// A type that takes a lock keeps the runtime in its struct. For example, `Label<'a, R>` has `rt: &'a R`
/// beside its `Mutex`, and there is an `impl<R: Wait> Show for Label<'_, R>`.
///
/// An attribute that is only read needs nothing else: its row wraps it in [`ReadOnly`].
pub trait Show {
    /// A show may fill the page with these bytes, or fail with this fault. If a driver does not define this,
    /// any result is allowed.
    ghost shows: { Self → Result (List ℕ) Fault → Type 0 } = { λ _ _. Unit {0} };

    /// Whether the attribute can be shown at all.
    ghost can_show: { Self → Bool } = { λ _. true };

    /// Fills the empty page, or fails with a fault, for example 5 (`EIO`) if the device does not respond.
    /// What it put on the page before a fault is not shown. It is never called for a file that nobody may
    /// read.
    fn show(&self, page: &mut Page) -> Result<(), Fault>
        requires empty { page.old.items ≡ [] }
        ensures shown { shows self.now (filled_by result page.new.items) };
}

/// What an attribute stores (`store` of `struct device_attribute`). Any number of threads may call it at
/// once, even while others call [`Show::show`].
///
/// An attribute that is only written needs nothing else: its row wraps it in [`WriteOnly`].
pub trait Store {
    /// A store of these bytes may return this result. If a driver does not define this, any result is
    /// allowed.
    ghost takes: { Self → List ℕ → Result (Unit {0}) Fault → Type 0 } = { λ _ _ _. Unit {0} };

    /// Whether the attribute takes stores at all.
    ghost can_store: { Self → Bool } = { λ _. true };

    /// Takes all of the bytes (1 to 4,096), or fails with a fault. The fault is 5 (`EIO`), for example, if
    /// the device does not respond, or comes from [`crate::fault_of`] if the bytes could not be read. It is
    /// never called for a file that nobody may write.
    fn store(&self, bytes: &[u8]) -> Result<(), Fault>
        requires some { 0 < length bytes.now }
        requires fits { length bytes.now ≤ 4096 }
        ensures taken { takes self.now bytes.now result };
}

/// An attribute that is only read (`DEVICE_ATTR_RO`): it shows what its callbacks show. A store fails with
/// Fault 5 (`EIO`), as in the kernel if a `struct device_attribute` has no `store`. The store calls nothing,
/// so nothing changes. A write to the file does not get that far, because opening the file for writing is
/// refused with `Access` (`EACCES`).
#[derive(Drop)]
pub struct ReadOnly<A>(pub A);

impl<A: Show> Show for ReadOnly<A> {
    ghost shows = { λ only filled. A.shows only.0 filled };

    ghost can_show = { λ only. A.can_show only.0 };

    fn show(&self, page: &mut Page) -> Result<(), Fault> {
        self.0.show(page)
    }
}

impl<A> Store for ReadOnly<A> {
    ghost takes = { λ _ _ answer. answer ≡ Err no_callback };

    ghost can_store = { λ _. false };

    fn store(&self, _bytes: &[u8]) -> Result<(), Fault> {
        Err(NO_CALLBACK)
    }
}

/// An attribute that is only written (`DEVICE_ATTR_WO`): it stores what its callbacks store. A show fails
/// with Fault 5 (`EIO`), as in the kernel if a `struct device_attribute` has no `show`. A read of the file
/// does not get that far, because opening the file for reading is refused with `Access` (`EACCES`).
#[derive(Drop)]
pub struct WriteOnly<A>(pub A);

impl<A> Show for WriteOnly<A> {
    ghost shows = { λ _ filled. filled ≡ Err no_callback };

    ghost can_show = { λ _. false };

    fn show(&self, _page: &mut Page) -> Result<(), Fault> {
        Err(NO_CALLBACK)
    }
}

impl<A: Store> Store for WriteOnly<A> {
    ghost takes = { λ only bytes answer. A.takes only.0 bytes answer };

    ghost can_store = { λ only. A.can_store only.0 };

    fn store(&self, bytes: &[u8]) -> Result<(), Fault> {
        self.0.store(bytes)
    }
}

impl<A: Show> Show for &A {
    ghost shows = { λ lent filled. A.shows lent.now filled };

    ghost can_show = { λ lent. A.can_show lent.now };

    fn show(&self, page: &mut Page) -> Result<(), Fault> {
        (**self).show(page)
    }
}

impl<A: Store> Store for &A {
    ghost takes = { λ lent bytes answer. A.takes lent.now bytes answer };

    ghost can_store = { λ lent. A.can_store lent.now };

    fn store(&self, bytes: &[u8]) -> Result<(), Fault> {
        (**self).store(bytes)
    }
}
