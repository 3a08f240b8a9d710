//! What bytes make of a frame.

ghost use Rattle.std.specs.Prelude.{◌≡◌, ◌≤◌, ◌++◌, length, take, drop, IfOk, option_map};
ghost use Rattle.std.specs.Int.{w32, to_be_bytes, from_be_bytes};
ghost use Rattle.machine_model.specs.Plain.{are_same, is_size, is_whole, is_bad_size, progress_behind, progress_by};
ghost use Rattle.plain_machine.specs.Seen.{seen_progress};

use std::alloc::{AllocError, Global};

/// What bytes make with those held.
#[derive(Drop)]
pub enum PlainProgress {
    /// Less than a frame.
    Part,
    /// A whole size that no frame has.
    BadSize(i32),
    /// A whole frame of this payload.
    Whole(Vec<u8>),
}

/// What bytes make, where they make anything.
pub fn progress_by(
    alloc: Global,
    max: u32,
    bytes: &[u8],
) -> Result<Option<PlainProgress>, AllocError>
    ensures { IfOk result (λ progress. option_map seen_progress progress ≡ progress_by max bytes.now) }
{
    if bytes.len() < 4 {
        return Ok(Some(PlainProgress::Part));
    }
    progress_behind(alloc, max, size_of(bytes), bytes)
}

/// The number that the first four bytes spell, most significant first.
fn size_of(bytes: &[u8]) -> u32
    requires { 4 ≤ length bytes.now }
    ensures { result ≡ from_be_bytes w32 (take 4 bytes.now) }
{
    let (size, _) = bytes.split_first_chunk::<4>().unwrap();
    u32::from_be_bytes(*size)
}

/// What bytes make whose first four spell this size.
fn progress_behind(
    alloc: Global,
    max: u32,
    size: u32,
    bytes: &[u8],
) -> Result<Option<PlainProgress>, AllocError>
    requires { 4 ≤ length bytes.now }
    ensures { IfOk result (λ progress. option_map seen_progress progress ≡ progress_behind max size bytes.now) }
{
    let (_, payload) = bytes.split_at(4);
    if is_size(max, size, bytes) && payload.len() < size as usize {
        return Ok(Some(PlainProgress::Part));
    }
    if is_whole(max, bytes) {
        return Ok(Some(PlainProgress::Whole(Vec::from_slice(alloc, payload)?)));
    }
    if is_bad_size(max, size, bytes) {
        return Ok(Some(PlainProgress::BadSize(size.cast_signed())));
    }
    Ok(None)
}

/// Whether bytes are the same.
fn are_same(one: &[u8], other: &[u8]) -> bool
    ensures { result ≡ are_same one.now other.now }
{
    one == other
}

/// Whether the first four bytes spell this size.
#[tactic(auto, using(crate::proofs::Seeing::same_fronts))]
fn begins_with(size: u32, bytes: &[u8]) -> bool
    requires { 4 ≤ length bytes.now }
    ensures { result ≡ are_same bytes.now (to_be_bytes w32 size ++ drop 4 bytes.now) }
{
    are_same(bytes.split_at(4).0, &size.to_be_bytes())
}

/// Whether bytes begin with this size, which a frame has.
fn is_size(max: u32, size: u32, bytes: &[u8]) -> bool
    requires { 4 ≤ length bytes.now }
    ensures { result ≡ is_size max size bytes.now }
{
    1 <= size && size <= max && begins_with(size, bytes)
}

/// Whether bytes are a whole frame.
fn is_whole(max: u32, bytes: &[u8]) -> bool
    requires { 4 ≤ length bytes.now }
    ensures { result ≡ is_whole max bytes.now }
{
    let size = bytes.len() - 4;
    1 <= size && size <= max as usize && begins_with(size as u32, bytes)
}

/// Whether bytes are just this size, which no frame has.
fn is_bad_size(max: u32, size: u32, bytes: &[u8]) -> bool
    ensures { result ≡ is_bad_size max size bytes.now }
{
    (size == 0 || max < size) && are_same(bytes, &size.to_be_bytes())
}
