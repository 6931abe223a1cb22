//! The tests of `kf_workers`.
mod run_tests;
mod waiting;
