//! The page of an open file: it lies in the file, or in a box that later files can use again.

ghost use Rattle.std.specs.Prelude.{◌≡◌, ℕ, List, OnOk};
ghost use Rattle.kf_core.specs.Calls.{GivenBack};
ghost use Rattle.kf_core.specs.declared.caller.Phase.TheVariants.{Running};
ghost use Rattle.kf_pages.specs.Files.{filled_by, text_of};

use crate::ops::{Fault, Ops, Page};
use kf_core::ActiveCall;

/// Holds the page of an open file. What is on the page before a show does not matter.
pub trait PageHolder {
    /// The bytes on the page.
    ghost bytes: { Self → List ℕ };

    /// Returns the bytes on the page.
    fn bytes(&self) -> &[u8]
        ensures same { result.now ≡ bytes self.now };

    /// Empties the page, lets the show fill it, and cuts a full page to its first 4,095 bytes. If the show
    /// fails, its fault is returned, and what is on the page does not matter.
    ///
    /// Condition: the call is Running.
    fn show<C: ActiveCall, O: Ops<C>>(
        &mut self,
        ops: &mut O,
        call: &mut C,
        tag: u64,
    ) -> Result<(), Fault>
        requires running { (C.view_of call.old).phase ≡ Running }
        ensures shown { (page : List ℕ) × O.shows ops.old tag (filled_by result page) ops.new
            × OnOk result (bytes self.new ≡ text_of page) }
        ensures call { GivenBack (C.view_of call.old) (C.view_of call.new) };
}

/// Shows on a page, as [`PageHolder::show`] does.
fn show_on<C: ActiveCall, O: Ops<C>>(
    page: &mut Page,
    ops: &mut O,
    call: &mut C,
    tag: u64,
) -> Result<(), Fault>
    requires running { (C.view_of call.old).phase ≡ Running }
    ensures shown { (filled : List ℕ) × O.shows ops.old tag (filled_by result filled) ops.new
        × OnOk result (page.new.items ≡ text_of filled) }
    ensures call { GivenBack (C.view_of call.old) (C.view_of call.new) }
{
    page.clear();
    ops.show(call, tag, page)?;
    page.truncate(4095);
    Ok(())
}

impl PageHolder for Page {
    ghost bytes = { λ page. page.items };

    fn bytes(&self) -> &[u8] {
        self.as_slice()
    }

    fn show<C: ActiveCall, O: Ops<C>>(
        &mut self,
        ops: &mut O,
        call: &mut C,
        tag: u64,
    ) -> Result<(), Fault> {
        show_on(self, ops, call, tag)
    }
}

impl PageHolder for Box<Page> {
    ghost bytes = { λ page. page.value.items };

    fn bytes(&self) -> &[u8] {
        (**self).as_slice()
    }

    fn show<C: ActiveCall, O: Ops<C>>(
        &mut self,
        ops: &mut O,
        call: &mut C,
        tag: u64,
    ) -> Result<(), Fault> {
        show_on(&mut **self, ops, call, tag)
    }
}

/// A page for a box, with two cache lines of padding behind it. So threads that write pages that lie side by
/// side share no cache line.
#[derive(Drop)]
pub struct PageApart {
    page: Page,
    apart: [u64; 16],
}

impl PageApart {
    /// Makes an empty page. No clause relies on that, since each show first empties the page.
    pub fn new() -> PageApart {
        PageApart {
            page: Page::new(),
            apart: [0; 16],
        }
    }
}

impl PageHolder for Box<PageApart> {
    ghost bytes = { λ page. page.value.page.items };

    fn bytes(&self) -> &[u8] {
        (**self).page.as_slice()
    }

    fn show<C: ActiveCall, O: Ops<C>>(
        &mut self,
        ops: &mut O,
        call: &mut C,
        tag: u64,
    ) -> Result<(), Fault> {
        show_on(&mut (**self).page, ops, call, tag)
    }
}
