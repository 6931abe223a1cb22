//! How often a device is reported.
ghost use Rattle.kf_uevents.specs.Devices.{AddedOnce, NeverBoth, RemovedOnce};

/// Why a listener reads one `add` of a device, and then one `remove`. The function does nothing. Its clauses
/// say which activations and removals report a node, in the trees before and after them. No command ever
/// clears the marks activated and doomed.
///
/// Right after an activation that reports a node, another activation would not report it, and a removal
/// would. Right after a removal of a node has begun, neither would: a second removal waits for the same
/// callbacks, and reports nothing. A removal reports only a node that an activation would not report.
pub fn devices_report_once()
    ensures added_once { AddedOnce }
    ensures removed_once { RemovedOnce }
    ensures never_both { NeverBoth }
{}
