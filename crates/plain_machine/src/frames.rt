//! The split of bytes into frames.

ghost use Rattle.std.specs.Prelude.{◌≡◌, ◌<◌, ◌≤◌, ◌^◌, ◌++◌, length, drop, map, IfOk, MatchOption};
ghost use Rattle.host_model.specs.Frames.{frame, Frames, IsPayload, IsRest};

use std::alloc::{AllocError, Global};

/// The payloads of the frames that bytes consist of, and where the rest behind them begins.
#[tactic(auto, using(crate::proofs::Splitting::splitting))]
pub fn split(alloc: Global, max: u32, bytes: &[u8]) -> Result<(Vec<Vec<u8>>, usize), AllocError>
    requires { max < 2 ^ 31 }
    ensures { IfOk result (λ r. (r.1 ≤ length bytes.now) × Frames max bytes.now (map (λ p. p.items) r.0.items) (drop r.1 bytes.now)) }
{
    let mut payloads = Vec::new(alloc);
    let mut rest = bytes;
    'walk: while let Some((payload, behind)) = first_frame(max, rest) {
        payloads.push(Vec::from_slice(alloc, payload)?)?;
        rest = behind;
    }
    Ok((payloads, bytes.len() - rest.len()))
}

/// The payload of the frame that stands in front, and what stands behind it.
#[tactic(auto, using(crate::proofs::Splitting::none_in_front))]
fn first_frame(max: u32, bytes: &[u8]) -> Option<(&[u8], &[u8])>
    requires { max < 2 ^ 31 }
    ensures { MatchOption result (IsRest max bytes.now) (λ r. IsPayload max r.0.now × (bytes.now ≡ frame r.0.now ++ r.1.now)) }
{
    let (size, rest) = bytes.split_first_chunk::<4>()?;
    let size = u32::from_be_bytes(*size);
    if size == 0 || max < size || rest.len() < size as usize {
        return None;
    }
    Some(rest.split_at(size as usize))
}
