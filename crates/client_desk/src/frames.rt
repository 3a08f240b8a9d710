//! Whole frames.

ghost use Rattle.std.specs.Prelude.{◌≡◌, ◌≤◌, ◌^◌, ◌++◌, ◌∷◌, [], drop, length, IfOk};
ghost use Rattle.std.specs.Int.{w32, to_be_bytes};
ghost use Rattle.host_model.specs.Frames.{frame};

use std::alloc::{AllocError, Global};

/// The bytes that a size has in front of a payload.
pub(crate) const SIZE_BYTES: usize = 4;

/// A frame without a payload, in which no size stands yet, with room for so many bytes.
pub(crate) fn opened(alloc: Global, room: usize) -> Result<Vec<u8>, AllocError>
    ensures { IfOk result (λ framed. framed.items ≡ 0 ∷ 0 ∷ 0 ∷ 0 ∷ []) }
{
    let mut framed = Vec::with_capacity(alloc, room)?;
    framed.extend_from_slice(&[0; SIZE_BYTES])?;
    Ok(framed)
}

/// Writes a size over the first four bytes.
fn put_size(framed: &mut [u8], size: u32)
    requires { 4 ≤ length framed.old }
    ensures { framed.new ≡ to_be_bytes w32 size ++ drop 4 framed.old }
{
    let bytes = size.to_be_bytes();
    framed[0] = bytes[0];
    framed[1] = bytes[1];
    framed[2] = bytes[2];
    framed[3] = bytes[3];
}

/// A frame whose payload is written, with its size.
pub(crate) fn with_size(framed: Vec<u8>) -> Vec<u8>
    requires size { 4 ≤ length framed.items }
    requires payload { length framed.items ≤ 2 ^ 31 }
    ensures { result.items ≡ frame (drop 4 framed.items) }
{
    let mut framed = framed;
    let size = (framed.len() - SIZE_BYTES) as u32;
    put_size(framed.as_mut_slice(), size);
    framed
}
