//! The tests of `kf_groups`: groups that are made, refused and removed.

mod many_tests;
mod steps;
mod tests;
mod waiting_tests;
