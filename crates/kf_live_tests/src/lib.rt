//! Tests of the crates that `kf_live` builds on (`kf_index`, `kf_tree` and `kf_looks`). They use only the
//! public calls of these crates, and are proved apart from them. (The tests of `kf_live` itself are in
//! `kf_shared_tests`.)
#![tactic(auto)]

#[cfg(test)]
mod answers;
#[cfg(test)]
mod fixtures;
#[cfg(test)]
mod look_tests;
#[cfg(test)]
mod room_tests;
#[cfg(test)]
mod tree_tests;
