//! The tests of `kf_words` and of `kf_shared`, through their public functions. They are proved on top of
//! these crates, and not as a part of them.
#![tactic(auto)]

mod laws;

pub use laws::tree_life;

#[cfg(test)]
mod crowd;
#[cfg(test)]
mod fixtures;
#[cfg(test)]
mod lock_tests;
#[cfg(test)]
mod lookers;
#[cfg(test)]
mod refused;
#[cfg(test)]
mod roles;
#[cfg(test)]
mod tests;
#[cfg(test)]
mod turns;
#[cfg(test)]
mod unused;
#[cfg(test)]
mod waits;
#[cfg(test)]
mod words;
