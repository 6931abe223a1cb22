//! What each seat at a gate's words knows.

/// What a gate's keeper knows.
#[derive(Clone, Copy)]
pub struct GatePlan {
    /// The number of the last opening, or 0 if the gate was never opened.
    pub number: u64,
    pub shut: bool,
    /// How many lanes, from the first one on, it has seen empty since it shut the gate.
    pub seen: u64,
    /// How many callers its last look at a lane found there.
    pub found: u64,
    /// Whether it has counted a pass that it has not made yet.
    pub spare: bool,
}

/// What a seat knows. The rule mentions this type, but no value of it is ever made.
pub enum GateView {
    /// It is the keeper's seat, with this plan, and has looked at lanes this many times.
    Keeps(GatePlan, u64),
    /// It counts in no lane. It is a new pass, or its last call broke its protection, or it took back a pass
    /// that it had counted.
    Outside,
    /// It counts in no lane. While it counted in one, it looked at the gate's word, and found this.
    Looked(u64),
    /// It counts in no lane. It took back a pass that was one too many: it had found this number in word 2.
    Full(u64),
    /// It counts in no lane. After it had left its lane, it looked at the gate's word, and found this.
    Left(u64),
    /// It has counted a pass that has no seat yet.
    Counted,
    /// It has counted one pass more than a gate may have: it found this number in word 2.
    OneTooMany(u64),
    /// It counts in this lane, and has not looked at the gate's word yet.
    Knocking(u64),
    /// It counts in this lane, and found the gate open, under this number.
    Inside(u64, u64),
    /// It counts in this lane, and found the gate shut: the gate's word was this.
    Turned(u64, u64),
    /// It was inside, by this lane and under this number, and no longer counts in that lane.
    Broken(u64, u64),
    /// Like `Broken`, but it counts in its lane again.
    Restored(u64, u64),
}
