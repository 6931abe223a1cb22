//! A driver's callbacks for open files, made from its table of attributes.
ghost use Rattle.std.specs.Prelude.{◌≡◌};

use crate::table::DriverTable;
use kf_files::{Fault, Page, WaitBinaryOps, WaitOps};
use kf_shared::{Naming, SharedTree};
use kf_words::Call;
use std::sync::Wait;

/// Serves files with the callbacks of a table's attributes. A show, store, read or write of a file goes to
/// the attribute that has the file's tag.
#[derive(Drop)]
pub struct Driver<T> {
    /// The table of attributes.
    pub table: T,
}

impl<T> Driver<T> {
    /// Makes the callbacks for the files of this table.
    pub fn new(table: T) -> Driver<T>
        ensures table { result.table ≡ table }
    {
        Driver { table }
    }
}

impl<T: DriverTable, N: Naming> WaitOps<N> for Driver<T> {
    ghost may_show = { λ driver. T.may_show driver.table };

    ghost may_store = { λ driver. T.may_store driver.table };

    fn show<R: Wait>(
        &self,
        _rt: &R,
        _tree: &SharedTree<N>,
        _call: &mut Call,
        tag: u64,
        page: &mut Page,
    ) -> Result<(), Fault> {
        self.table.show(tag, page)
    }

    fn store<R: Wait>(
        &self,
        _rt: &R,
        _tree: &SharedTree<N>,
        _call: &mut Call,
        tag: u64,
        bytes: &[u8],
    ) -> Result<usize, Fault> {
        self.table.store(tag, bytes)
    }
}

impl<T: DriverTable, N: Naming> WaitBinaryOps<N> for Driver<T> {
    ghost may_read_at = { λ driver. T.may_read_at driver.table };

    ghost may_write_at = { λ driver. T.may_write_at driver.table };

    fn read_at<R: Wait>(
        &self,
        _rt: &R,
        _tree: &SharedTree<N>,
        _call: &mut Call,
        tag: u64,
        offset: u64,
        out: &mut [u8],
    ) -> Result<usize, Fault> {
        self.table.read_at(tag, offset, out)
    }

    fn write_at<R: Wait>(
        &self,
        _rt: &R,
        _tree: &SharedTree<N>,
        _call: &mut Call,
        tag: u64,
        offset: u64,
        bytes: &[u8],
    ) -> Result<usize, Fault> {
        self.table.write_at(tag, offset, bytes)
    }
}
