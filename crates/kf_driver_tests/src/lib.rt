//! The tests of `kf_text`, `kf_groups`, `kf_uevents` and `kf_driver`, of `kf_notify`, `kf_files` and
//! `kf_device`, and of `kf_workers`. They use only the public calls of these crates, and are proved on top of
//! the crates, not together with them.
#![tactic(auto)]

#[cfg(test)]
mod counted;
#[cfg(test)]
mod device;
#[cfg(test)]
mod file_tests;
#[cfg(test)]
mod fixtures;
#[cfg(test)]
mod groups;
#[cfg(test)]
mod notifier_tests;
#[cfg(test)]
mod row_tests;
#[cfg(test)]
mod steps;
#[cfg(test)]
mod uevents;
#[cfg(test)]
mod workers;
