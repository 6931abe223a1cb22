//! Why a callback of a bus fails.
ghost use Rattle.std.specs.Prelude.{◌≡◌};
ghost use Rattle.kf_device.specs.Faults.{fault_of};
ghost use Rattle.kf_pages.specs.Files.{unknown_tag};

use kf_core::Refusal;
use kf_files::Fault;

/// The fault for a file that the bus does not know, or for which it keeps no text.
pub(crate) fn unknown() -> Fault
    ensures value { result ≡ unknown_tag }
{
    Fault { number: 22 }
}

/// A fault with the number of the refusal that was met.
pub(crate) fn fault_of(refusal: Refusal) -> Fault
    ensures value { result ≡ fault_of refusal }
{
    Fault {
        number: refusal.number(),
    }
}
