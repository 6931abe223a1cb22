//! Holds that are released, and calls that are ended, when they are dropped.
ghost use Rattle.std.specs.Prelude.{◌≡◌, ◌≢◌, false, IsTrue};
ghost use Rattle.kf_core.specs.declared.caller.Phase.TheVariants.{Running};
ghost use Rattle.kf_handles.specs.Steps.{HasEnded, HasReleased};

use kf_core::Phase;
use kf_words::{Call, Hold, Wake};

/// A hold that is released when it is dropped.
pub struct Held {
    pub(crate) hold: Hold,
}

impl Held {
    /// Wraps a hold.
    pub fn new(hold: Hold) -> Held
        ensures { result.hold ≡ hold }
    {
        Held { hold }
    }

    /// The hold, which the caller must then release.
    pub fn into_hold(self) -> Hold
        ensures { result ≡ self.hold }
    {
        let Held { hold } = self;
        hold
    }

    /// Releases the hold. Returns true if the slot was found with the greatest number of holds.
    pub fn end(self) -> bool
        ensures { HasReleased self.hold result }
    {
        self.into_hold().release_place()
    }
}

impl Drop for Held {
    fn drop(self) {
        self.end();
    }
}

/// A call that is ended when it is dropped, and whose hold is then released.
pub struct Inside {
    pub(crate) call: Call,
}

impl Inside {
    /// Wraps a call.
    pub fn new(call: Call) -> Inside
        ensures { result.call ≡ call }
    {
        Inside { call }
    }

    /// The call, which the caller must then end.
    pub fn into_call(self) -> Call
        ensures { result ≡ self.call }
    {
        let Inside { call } = self;
        call
    }

    /// Whether the call still has the reference with which it entered (it is Running).
    pub fn is_running(&self) -> bool
        ensures yes { IsTrue result → self.now.call.phase ≡ Running }
        ensures no { result ≡ false → self.now.call.phase ≢ Running }
    {
        self.call.phase() == Phase::Running
    }

    /// Ends the call, whatever its phase is, and releases its hold. Returns true if a sleeper at the node may
    /// be waiting for one of the two.
    pub fn end(self) -> bool
        ensures { HasEnded self.call result }
    {
        let mut call = self.into_call();
        if call.phase() == Phase::Broken {
            call.restore();
        }
        let (hold, due) = call.leave_quiet();
        let was_full = hold.release_place();
        match due.must_wake() {
            Wake::Wanted => true,
            Wake::Unwanted => was_full,
        }
    }
}

impl Drop for Inside {
    fn drop(self) {
        self.end();
    }
}
