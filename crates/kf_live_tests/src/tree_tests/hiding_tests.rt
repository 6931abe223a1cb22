//! Tests hiding files, and showing them again after they have been activated or doomed.

use super::steps::{Look, Step, first_wrong};
use crate::answers::all_right;
use kf_core::Refusal;

const COURSE: [Step; 14] = [
    Step::OffFile(b"/t", 1),
    Step::Hide(1, None),
    Step::Activate(1),
    Step::Is(Look::Absent(b"/t")),
    Step::Show(1, true),
    Step::Is(Look::Live(b"/t", 1)),
    Step::Hide(1, None),
    Step::Doom(1, &[1]),
    Step::Hide(1, Some(Refusal::NoEntry)),
    Step::Show(1, true),
    Step::Is(Look::Marks(1, (true, true, false))),
    Step::Unlink(1, Ok(true)),
    Step::Show(1, false),
    Step::Is(Look::Stored(b"CHASHDSU")),
];

#[test]
fn shows_what_was_activated_or_doomed_meanwhile(rt: HostRuntime) {
    all_right(&rt, first_wrong(rt.alloc(), 1024, &COURSE));
}
