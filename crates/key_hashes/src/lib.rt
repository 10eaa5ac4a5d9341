//! Keys of maps that strangers choose: hashers that the keys seed, and names as keys.
#![tactic(auto)]

mod hashes;
mod key;
mod seed;
mod short;

pub use hashes::KeyHashes;
pub use key::NameKey;
pub use seed::{Seed, hashes_of};
