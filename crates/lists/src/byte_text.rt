//! A text as its bytes, in any encoding or none: what names and literals of an IDL, and byte strings on a wire, are kept in.

ghost use Rattle.std.specs.Prelude.{◌≡◌, ◌<◌, All, IfOk};

use std::alloc::{AllocError, Global};
use std::marker::Model;

/// A text as its bytes, in any encoding or none.
#[derive(Debug)]
pub struct ByteText {
    // Any bytes, in order.
    bytes: Vec<u8>,
}

impl Model for ByteText {
    ghost use Rattle.std.specs.Prelude.{List, ℕ};

    ghost Value = { List ℕ };

    ghost view = { λ text. text.bytes.items };
}

// Written out, so that crates above needn't prove it again.
impl Drop for ByteText {
    fn drop(self) {
        let ByteText { bytes } = self;
        drop(bytes);
    }
}

impl ByteText {
    /// The text of these bytes.
    pub fn new(bytes: Vec<u8>) -> Self
        ensures { result ≡ bytes.items }
    {
        ByteText { bytes }
    }

    /// The bytes.
    pub fn as_slice(&self) -> &[u8]
        ensures { result.now ≡ self.now }
    {
        self.bytes.as_slice()
    }

    /// The bytes, to be taken apart.
    pub fn into_vec(self) -> Vec<u8>
        ensures { result.items ≡ self }
    {
        let ByteText { bytes } = self;
        bytes
    }

    /// A copy of the text, in memory of its own.
    pub fn try_clone(&self, alloc: Global) -> Result<ByteText, AllocError>
        ensures { IfOk result (λ text. text ≡ self.now) }
    {
        let bytes = self.bytes.as_slice().to_vec(alloc)?;
        Ok(ByteText { bytes })
    }

    /// Makes it known to a proof that each of the bytes is one.
    pub fn numbers_fit(&self)
        ensures { All (λ b. b < 256) self.now }
    {
        bytes_fit(self.as_slice());
    }
}

// Each byte of a slice is below 256, which a proof knows of a slice that it is passed.
fn bytes_fit(bytes: &[u8])
    ensures { All (λ b. b < 256) bytes.now }
{
    let _count = bytes.len();
}
