//! A box taken apart into its pointer and its allocator, which the module above can access. The two own what
//! the box owned.
ghost use Rattle.std.specs.Prelude.{◌≡◌};
ghost use Rattle.std.specs.Box.Ownership.{box_owns};

use std::alloc::Allocator;
use std::marker::Model;

/// The pointer and the allocator of a box.
pub struct Apart<T, A: Allocator> {
    pub(super) ptr: *mut T,
    pub(super) alloc: A,
    pub ghost value: { T },
}

impl<T, A: Allocator> Model for Apart<T, A> {
    ghost also_owns = { λ a. box_owns (A.dealloc_token a.alloc) T.row a.ptr a.value };
}

impl<T, A: Allocator> Apart<T, A> {
    /// Takes a box apart.
    pub fn of(boxed: Box<T, A>) -> Apart<T, A>
    where
        T: Drop,
        ensures { result.value ≡ boxed.value }
    {
        let (ptr, alloc) = Box::into_raw_with_allocator(boxed);
        Apart { ptr, alloc }
    }

    /// Makes the box again.
    pub fn into_box(self) -> Box<T, A>
        ensures { result.value ≡ self.value }
    {
        let Apart { ptr, alloc } = self;
        unsafe { Box::from_raw(alloc, ptr) }
    }
}
