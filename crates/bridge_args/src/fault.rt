//! Why words ask for nothing.

use thiserror::Error;

/// Why the words ask for nothing.
#[derive(Clone, Copy, Debug, PartialEq, Eq, Error)]
pub enum WordsFault {
    /// The words aren't of the usage.
    #[error("usage")]
    Usage,
    #[error("out of memory")]
    Memory,
}
