//! The tests of `kf_notify`, `kf_files` and `kf_device`.
mod bus_tests;
mod delayed;
mod files;
mod fixtures;
mod steps;
mod thread_tests;
