//! The tests of `kf_uevents`: what a listener reads, what it misses, and how it sleeps.

mod device_tests;
mod looking_tests;
mod sleeping_tests;
mod steps;
mod tests;
