//! The bytes of a size that is under way.

ghost use Rattle.std.specs.Prelude.{◌≡◌, ◌≤◌, ◌+◌, [], ◌++◌, length};
ghost use Rattle.std.specs.Int.{w32, from_be_bytes, cast_signed};

use std::marker::Model;

/// The first bytes of a size, at most the four that it has; contracts see them as a list.
#[derive(Drop)]
pub struct SizeBytes {
    /// The bytes; what stands behind the first `count` is left open.
    bytes: [u8; 4],
    /// How many there are, at most 4.
    count: usize,
}

impl Model for SizeBytes {
    ghost use Rattle.std.specs.Prelude.{◌≤◌, List, ℕ, take};

    ghost Value = { List ℕ };

    ghost view = { λ s. take s.count s.bytes };

    ghost invariant = { λ s. s.count ≤ 4 };
}

impl SizeBytes {
    /// Holds no byte yet.
    pub fn new() -> Self
        ensures { result ≡ [] }
    {
        SizeBytes {
            bytes: [0; 4],
            count: 0,
        }
    }

    /// How many bytes there are.
    pub fn len(&self) -> usize
        ensures { result ≡ length self.now }
    {
        self.count
    }

    /// Adds bytes, as many as are missing at most.
    pub fn extend(&mut self, bytes: &[u8])
        requires { length self.old + length bytes.now ≤ 4 }
        ensures { self.new ≡ self.old ++ bytes.now }
    {
        let end = self.count + bytes.len();
        self.bytes[self.count..end].copy_from_slice(bytes);
        self.count = end;
    }

    /// The size that four bytes spell.
    pub fn size(&self) -> i32
        requires { length self.now ≡ 4 }
        ensures { result ≡ cast_signed w32 (from_be_bytes w32 self.now) }
    {
        i32::from_be_bytes(self.bytes)
    }
}
