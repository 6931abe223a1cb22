//! Callbacks that count how often they were called, and show it.

use kf_driver::{Show, Store, fault_of};
use kf_files::{Fault, Page};
use kf_text::{Base, Part, emit, emit_at, read_unsigned_in, read_word};
use std::sync::atomic::{AtomicU64, Ordering};

/// Shows in base 16 how often it was called before, counting each store as 0x100 calls. It writes this over a
/// line that it has put on the page. A show fails with a fault if the count is 2. A store takes the words
/// `off` and `on`, and numbers up to 31 in the base that their prefix says.
#[derive(Drop)]
pub(crate) struct Counted {
    pub(crate) calls: AtomicU64,
}

impl Show for Counted {
    fn show(&self, page: &mut Page) -> Result<(), Fault> {
        let number = self.calls.fetch_add(1, Ordering::SeqCst);
        emit(page, &[Part::Hex(number), Part::Newline]);
        emit_at(page, 0, &[Part::PaddedHex { number, width: 4 }]);
        if number == 2 {
            return Err(Fault { number: 5 });
        }
        Ok(())
    }
}

impl Store for Counted {
    fn store(&self, bytes: &[u8]) -> Result<(), Fault> {
        self.calls.fetch_add(0x100, Ordering::SeqCst);
        if read_word(&[b"off", b"on"], bytes).is_ok() {
            return Ok(());
        }
        match read_unsigned_in(bytes, Base::ByPrefix, 31) {
            Ok(_) => Ok(()),
            Err(why) => Err(fault_of(why)),
        }
    }
}
