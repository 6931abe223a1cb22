//! How a test ends: it has searched for the first wrong result, and must have found none.

use kf_core::Refusal;
use std::process::Abort;

pub(crate) fn all_right(rt: &impl Abort, first_wrong: Result<Option<usize>, Refusal>) {
    assert_eq!(rt; first_wrong, Ok(None));
}
