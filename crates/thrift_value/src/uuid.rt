//! A uuid as one number.
ghost use Rattle.std.specs.Prelude.{◌≡◌, ◌+◌, ◌*◌, ◌^◌, ℕ};

use std::marker::Model;

/// A uuid: its sixteen bytes as one number, the highest byte first.
///
/// It is held in two halves, since a number of 128 bits would stand at multiples of sixteen bytes, and each field of a struct
/// would be eight bytes longer for it.
#[derive(Drop)]
pub struct Uuid {
    // The first eight bytes.
    high: u64,
    // The last eight bytes.
    low: u64,
}

impl Model for Uuid {
    ghost Value = { ℕ };

    ghost view = { λ uuid. uuid.high * 2 ^ 64 + uuid.low };
}

impl Uuid {
    /// The uuid of this number.
    pub fn new(number: u128) -> Self
        ensures { result ≡ number }
    {
        Uuid {
            high: (number >> 64) as u64,
            low: (number % (1 << 64)) as u64,
        }
    }

    /// The sixteen bytes as one number.
    pub fn number(&self) -> u128
        ensures { result ≡ self.now }
    {
        ((self.high as u128) << 64) + self.low as u128
    }
}
