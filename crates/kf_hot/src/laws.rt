//! What the tree promises about callers inside a gate.
ghost use Rattle.kf_hot.specs.Laws.{InsideIsCovered};

/// What holds of a node and of a gate that keeps a call of it, at each moment (between any two steps). This
/// function does nothing. Its clause says what follows from the rule of the words and the rule of the gate.
///
/// While somebody is inside the gate, no caller has seen the node drained, out of the tree, or hidden and
/// unused. So no removal and no hiding of the node, whoever began it, ends before the last caller inside has
/// left the gate.
pub fn hot_tells()
    ensures inside_is_covered { InsideIsCovered }
{}
