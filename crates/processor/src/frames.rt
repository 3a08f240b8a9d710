//! Whole frames.

ghost use Rattle.std.specs.Prelude.{◌≡◌, ◌≤◌, ◌+◌, ◌^◌, ◌++◌, ◌∷◌, [], drop, length, IfOk};
ghost use Rattle.std.specs.Int.{w32, to_be_bytes};
ghost use Rattle.host_model.specs.Frames.{frame};
ghost use Rattle.call_rules.specs.Desks.{longest_payload};
ghost use Rattle.call_model.specs.Decisions.{failure_frame};
ghost use Rattle.processor.specs.Seen.{failure_of};

use crate::failures::FailureText;
use crate::names::method_part;
use envelope::{LentHead, Protocol, write_exception};
use std::alloc::{AllocError, Global};

/// The bytes that a size has in front of a payload.
pub(crate) const SIZE_BYTES: usize = 4;

/// The most bytes that the frame of a failure has beside its name and its text.
const FAILURE_ROOM: usize = 31;

/// A frame without a payload, in which no size stands yet, with room for so many bytes.
pub(crate) fn opened(alloc: Global, room: usize) -> Result<Vec<u8>, AllocError>
    ensures { IfOk result (λ framed. framed.items ≡ 0 ∷ 0 ∷ 0 ∷ 0 ∷ []) }
{
    let mut framed = Vec::with_capacity(alloc, room)?;
    framed.extend_from_slice(&[0; SIZE_BYTES])?;
    Ok(framed)
}

/// Writes a size over the first four bytes.
fn put_size(framed: &mut [u8], size: u32)
    requires { 4 ≤ length framed.old }
    ensures { framed.new ≡ to_be_bytes w32 size ++ drop 4 framed.old }
{
    let bytes = size.to_be_bytes();
    framed[0] = bytes[0];
    framed[1] = bytes[1];
    framed[2] = bytes[2];
    framed[3] = bytes[3];
}

/// A frame whose payload is written, with its size.
pub(crate) fn with_size(framed: Vec<u8>) -> Vec<u8>
    requires size { 4 ≤ length framed.items }
    requires payload { length framed.items ≤ 2 ^ 31 }
    ensures { result.items ≡ frame (drop 4 framed.items) }
{
    let mut framed = framed;
    let size = (framed.len() - SIZE_BYTES) as u32;
    put_size(framed.as_mut_slice(), size);
    framed
}

/// How many bytes the frame of a failure has at most.
fn failure_room(head: &LentHead<'_>, failure: &FailureText) -> usize
    requires name { length head.now.name ≤ longest_payload }
    requires text { length failure.now.text.items ≤ longest_payload + 100 }
{
    FAILURE_ROOM + head.name().len() + failure.text.len()
}

/// The frame that tells a caller of a failure.
#[tactic(auto, unfolding(call_model::specs::Decisions::failure_frame))]
pub(crate) fn failure_frame(
    alloc: Global,
    protocol: Protocol,
    head: &LentHead<'_>,
    failure: &FailureText,
) -> Result<Vec<u8>, AllocError>
    requires name { length head.now.name ≤ longest_payload }
    requires text { length failure.now.text.items ≤ longest_payload + 100 }
    ensures { IfOk result (λ framed. framed.items ≡ failure_frame protocol head.now (failure_of failure.now)) }
{
    let mut framed = opened(alloc, failure_room(head, failure))?;
    write_exception(
        protocol,
        method_part(head.name()),
        head.id(),
        failure.text.as_slice(),
        failure.code,
        &mut framed,
    )?;
    Ok(with_size(framed))
}
