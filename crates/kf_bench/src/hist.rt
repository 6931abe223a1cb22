//! A histogram of times. It has 16 places (buckets) for each doubling, so a figure is accurate to one
//! sixteenth.

use std::alloc::{AllocError, Global};
use std::io;

/// How many places there are: one for each time below 32, and 16 for each doubling above.
const PLACES: usize = 1024;

/// How often each time occurred, how many times there are in all, and the longest of them, in nanoseconds.
#[derive(Drop)]
pub(crate) struct Histogram {
    counts: Vec<u64>,
    all: u64,
    worst: u64,
}

/// The place of a time.
fn place_of(time: u64) -> usize {
    let (mut rest, mut place) = (time, 0usize);
    for _ in 0..64u32 {
        if rest < 32 {
            break;
        }
        rest /= 2;
        place = place.saturating_add(16);
    }
    place.saturating_add(rest as usize)
}

/// The shortest time that has this place.
fn time_of(place: usize) -> u64 {
    let (mut rest, mut times) = (place as u64, 1u64);
    for _ in 0..64u32 {
        if rest < 32 {
            break;
        }
        rest = rest.saturating_sub(16);
        times = times.saturating_mul(2);
    }
    rest.saturating_mul(times)
}

impl Histogram {
    /// An empty histogram.
    pub(crate) fn new(alloc: Global) -> Result<Histogram, AllocError> {
        let counts = vec![in alloc; 0u64; PLACES]?;
        Ok(Histogram {
            counts,
            all: 0,
            worst: 0,
        })
    }

    /// Adds a time.
    pub(crate) fn add(&mut self, time: u64) {
        if let Some(count) = self.counts.get_mut(place_of(time)) {
            *count = count.saturating_add(1);
        }
        self.all = self.all.saturating_add(1);
        self.worst = self.worst.max(time);
    }

    /// Adds all times of another histogram.
    pub(crate) fn add_all(&mut self, other: &Histogram) {
        let mut place = 0usize;
        for more in other.counts.as_slice() {
            if let Some(count) = self.counts.get_mut(place) {
                *count = count.saturating_add(*more);
            }
            place = place.saturating_add(1);
        }
        self.all = self.all.saturating_add(other.all);
        self.worst = self.worst.max(other.worst);
    }

    /// The time below which `of` in 1,000 of the times are.
    fn quantile(&self, of: u64) -> u64 {
        let before = self.all.saturating_mul(of) / 1000;
        let (mut seen, mut place) = (0u64, 0usize);
        for count in self.counts.as_slice() {
            seen = seen.saturating_add(*count);
            if seen > before {
                return time_of(place).min(self.worst);
            }
            place = place.saturating_add(1);
        }
        self.worst
    }

    /// Prints how many times there are, the median, the 99th and the 99.9th percentile, and the longest.
    pub(crate) fn print<R: Print>(&self, rt: &R) -> io::Result<()> {
        print!(rt; "{:>10}", self.all)?;
        print!(rt; "{:>10}{:>10}", self.quantile(500), self.quantile(990))?;
        print!(rt; "{:>11}{:>12}", self.quantile(999), self.worst)
    }

    /// The longest time.
    pub(crate) fn worst(&self) -> u64 {
        self.worst
    }

    /// How many times there are.
    pub(crate) fn count(&self) -> u64 {
        self.all
    }
}
