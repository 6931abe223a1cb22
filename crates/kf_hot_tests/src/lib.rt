//! Tests of gates, of hot nodes and their open files, and of registries, through the public calls of
//! `kf_gates`, `kf_hot`, `kf_registry`, `kf_shared` and `kf_files`. They are proved against the contracts of
//! these crates, and not together with them.
#![tactic(auto)]

#[cfg(test)]
mod file_tests;
#[cfg(test)]
mod file_threads;
#[cfg(test)]
mod files;
#[cfg(test)]
mod gates;
#[cfg(test)]
mod nodes;
#[cfg(test)]
mod passes;
#[cfg(test)]
mod registry;
#[cfg(test)]
mod tests;
