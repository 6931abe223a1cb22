//! The fault of a store whose bytes could not be read.
ghost use Rattle.std.specs.Prelude.{◌≡◌};
ghost use Rattle.kf_text.specs.Readings.{number_of};

use kf_files::Fault;
use kf_text::NotRead;

/// The fault of bytes that could not be read: 22 (`EINVAL`) or 34 (`ERANGE`). A store puts it after a
/// reading, as `.map_err(|why| fault_of(why))?`. (From another crate, the checker does not accept a bare
/// `fault_of` there.)
pub fn fault_of(why: NotRead) -> Fault
    ensures number { result ≡ record { number = number_of why } }
{
    Fault {
        number: why.number(),
    }
}
