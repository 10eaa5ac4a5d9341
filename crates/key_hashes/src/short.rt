// Names of few bytes.

ghost use Rattle.std.specs.Prelude.{◌≡◌, ◌≤◌, length};

use std::marker::Model;

/// Up to so many bytes are few.
pub const FEW: usize = 14;

/// The bytes of a name, where they are few.
#[derive(Drop)]
pub struct ShortName {
    count: u8,
    bytes: [u8; FEW],
}

impl Model for ShortName {
    ghost use Rattle.std.specs.Prelude.{◌≤◌, ℕ, List, take};

    ghost Value = { List ℕ };

    ghost view = { λ s. take s.count s.bytes };

    ghost invariant = { λ s. s.count ≤ 14 };
}

impl ShortName {
    /// The bytes of a name.
    pub fn of(name: &[u8]) -> ShortName
        requires { length name.now ≤ 14 }
        ensures { result ≡ name.now }
    {
        let mut bytes = [0; FEW];
        bytes[..name.len()].copy_from_slice(name);
        ShortName {
            count: name.len() as u8,
            bytes,
        }
    }

    /// The name.
    pub fn as_slice(&self) -> &[u8]
        ensures { result.now ≡ self.now }
    {
        &self.bytes[..self.count as usize]
    }
}
