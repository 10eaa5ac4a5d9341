//! Bytes in which some stand several times, and are held once.
#![tactic(auto)]

mod bytes;
mod sharing;

pub use bytes::SharedBytes;
pub use sharing::Sharing;
