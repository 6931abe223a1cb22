//! The tests of `kf_words`, in threads.
mod fixtures;
mod roles;
mod tests;
