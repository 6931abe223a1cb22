//! How much time a wait with a limit has left.
use std::time::{Clock, Duration, Instant};

/// A wait with a time limit, which counts from the moment when it began. No clause says what a clock shows.
#[derive(Clone, Copy, Drop)]
pub struct Deadline {
    // None if the clock could not be read.
    start: Option<Instant>,
    limit: Duration,
}

impl Deadline {
    /// Begins a wait with this limit.
    pub fn new<R: Clock>(rt: &R, limit: Duration) -> Deadline {
        Deadline {
            start: Instant::now(rt).ok(),
            limit,
        }
    }

    /// Returns how much time is left, or None if the wait is over. If the clock cannot be read, the wait is
    /// over.
    pub fn left<R: Clock>(&self, rt: &R) -> Option<Duration> {
        let past = self.start?.elapsed(rt).ok()?;
        let left = self.limit.saturating_sub(past);
        if left.is_zero() { None } else { Some(left) }
    }
}
