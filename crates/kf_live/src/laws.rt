//! What the links say about the tree.
ghost use Rattle.kf_live.specs.Laws.{LeadAlike, LeadSoundly};

/// If links agree with a lawful tree, a path leads along them only to the live node that it names there. This
/// function does nothing: its clauses say what follows.
///
/// The node to which the links lead along a path is the live node that the path names in the tree
/// (`State::lookup`), and the links say what that node is. This also holds of links that are sound but lack
/// names, as the links are between two changes of one command.
pub fn look_ups_tell()
    ensures lead_alike { LeadAlike }
    ensures lead_soundly { LeadSoundly }
{}
