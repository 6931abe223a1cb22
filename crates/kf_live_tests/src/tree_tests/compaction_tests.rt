//! Tests compaction, which puts the canonical list in place of the stored commands.

use super::steps::{Look, Step, first_wrong};
use crate::answers::all_right;

/// A forest: `/a` is doomed, with a hidden file and a directory below it. `/b` is live, with one hidden file
/// and one doomed file. `/c` is not activated. Nine nodes are below the root; five are doomed (three of these
/// inside `/a`), and two are hidden. After the removal of `/a`, five nodes are below the root; one is doomed
/// in a directory that is not doomed, and one is hidden.
const FOREST: [Step; 31] = [
    Step::Is(Look::Counts(0, 0)),
    Step::Directory(b"/b", 1),
    Step::File(b"/b/shown", 2),
    Step::File(b"/b/hidden", 3),
    Step::File(b"/b/gone", 4),
    Step::Directory(b"/a", 5),
    Step::File(b"/a/hidden", 6),
    Step::Directory(b"/a/d", 7),
    Step::Off(b"/a/d/x", 8, None),
    Step::Off(b"/c", 9, None),
    Step::Hide(3, None),
    Step::Hide(6, None),
    Step::Doom(8, &[8]),
    Step::Doom(5, &[8, 7, 6, 5]),
    Step::Doom(4, &[4]),
    Step::Is(Look::Stored(b"CCCCCCCCCHHDDD")),
    Step::Is(Look::Counts(14, 16)),
    Step::Compact,
    Step::Is(Look::Counts(13, 16)),
    Step::Is(Look::Stored(b"CCCCCCCCCDDHH")),
    Step::Is(Look::About(&[5, 7, 8, 6, 1, 4, 3, 2, 9, 5, 4, 6, 3])),
    Step::Is(Look::Shows(0, &[b"b"])),
    Step::Is(Look::Shows(1, &[b"shown"])),
    Step::Show(6, true),
    Step::Remove(b"/a", None),
    Step::Is(Look::Counts(19, 7)),
    Step::Compact,
    Step::Is(Look::Counts(7, 7)),
    Step::Remove(b"/b", None),
    Step::Compact,
    Step::Is(Look::Stored(b"C")),
];

#[test]
fn compacts_a_forest_in_its_order(rt: HostRuntime) {
    all_right(&rt, first_wrong(rt.alloc(), 1024, &FOREST));
}
