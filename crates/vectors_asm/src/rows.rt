//! What all rows assert, in one place: an assertion costs the prover as much as several rows.
use std::process::Abort;

/// The row of this number is as it says.
pub(crate) fn holds(rt: &impl Abort, number: usize, is_so: bool) {
    assert!(rt; is_so, "row {number}");
}
