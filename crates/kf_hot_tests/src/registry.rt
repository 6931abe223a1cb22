//! Tests of `kf_registry`.
mod counted;
mod crowd;
mod hot;
mod steps;
mod tests;
