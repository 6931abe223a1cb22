//! The tests of `kf_notify` and `kf_files`: event numbers, and files whose callbacks belong to no bus.

mod callback_tests;
mod driver;
mod steps;
mod wait_tests;
mod watch_tests;
