//! A handle: the pointer of a box, which a program in C keeps.
ghost use Rattle.std.specs.Prelude.{◌≡◌, Option, Some};
ghost use Rattle.kf_handles.specs.declared.object.Place.{Place};
ghost use Rattle.kf_handles.specs.Ownership.{given_coded, given_owns, handle_owns, place_coded};

mod apart;

use crate::object::Place;
use apart::Apart;
use std::alloc::Global;
use std::marker::Model;

/// A handle, as a program in C keeps it. It owns the box of a place.
#[repr(C)]
pub struct KtHandle {
    at: *mut u8,
    alloc: Global,
    pub ghost place: { Place } by { place_coded },
}

impl Model for KtHandle {
    ghost also_owns = { λ h. handle_owns h.alloc h.at h.place };
}

/// The memory in which a program in C gets a new handle. It owns nothing, or what that handle owns.
#[repr(C)]
pub struct KtGiven {
    at: *mut u8,
    alloc: Global,
    pub ghost place: { Option Place } by { given_coded },
}

impl Model for KtGiven {
    ghost also_owns = { λ g. given_owns g.alloc g.at g.place };
}

impl KtHandle {
    fn of_apart(apart: Apart<Place, Global>) -> KtHandle
        ensures { result.place ≡ apart.value }
    {
        let Apart { ptr, alloc } = apart;
        let at = ptr as *mut u8;
        KtHandle { at, alloc }
    }

    fn into_apart(self) -> Apart<Place, Global>
        ensures { result.value ≡ self.place }
    {
        let KtHandle { at, alloc } = self;
        let ptr = at as *mut Place;
        Apart { ptr, alloc }
    }

    /// The handle of a box.
    pub(crate) fn of(boxed: Box<Place, Global>) -> KtHandle
        ensures { result.place ≡ boxed.value }
    {
        KtHandle::of_apart(Apart::of(boxed))
    }

    /// The box that the handle owns.
    pub(crate) fn into_box(self) -> Box<Place, Global>
        ensures { result.value ≡ self.place }
    {
        self.into_apart().into_box()
    }

    /// The same handle, as a program gets it.
    pub(crate) fn give(self) -> KtGiven
        ensures { result.place ≡ Some self.place }
    {
        let KtHandle { at, alloc } = self;
        KtGiven { at, alloc }
    }

    /// Only the pointer. From then on the program owns what the handle owned.
    pub(crate) fn into_pointer(self) -> *mut u8
        ensures { result ≡ self.at }
    {
        let KtHandle { at, alloc: _ } = self;
        at
    }
}

impl KtHandle {
    ghost use Rattle.std.specs.Borrow.{sem};
    ghost use Rattle.kf_handles.specs.Lending.{LendsPlace};

    /// What is behind the handle, lent in place. Nothing is written to the handle itself, so threads whose
    /// handles share a cache line do not slow each other down.
    #[inline(always)]
    pub(crate) fn place_mut(&mut self) -> &mut Place
        ensures* writes_back { sem 𝓛 (LendsPlace self.entry result) }
        ensures value { result.now ≡ self.old.place }
    {
        let at = self.at as *mut Place;
        unsafe { &mut *at }
    }
}

/// What is behind a handle may be moved to another thread.
unsafe impl Send for KtHandle {}
