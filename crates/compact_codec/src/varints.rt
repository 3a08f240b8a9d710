//! Numbers of a variable number of bytes, most of which have one: such a number takes no loop and no call.

ghost use Rattle.std.specs.Prelude.{◌≡◌, ◌++◌, Ok, Err, MatchResult, OnOk, OnErr};
ghost use Rattle.std.specs.Int.{w32, w64};
ghost use Rattle.wire_num.specs.Varint.{decode_varint, varint_bytes};

use std::alloc::AllocError;
use wire_num::{NumFault, decode_varint32, decode_varint64, put_u8, put_varint32, put_varint64};

/// Thirty-two bits in front of bytes.
#[tactic(auto, using(crate::proofs::OneByte::one_byte_32))]
#[inline(always)]
pub(crate) fn next_varint32(bytes: &[u8]) -> Result<(u32, &[u8]), NumFault>
    ensures { MatchResult result
        (λ r. decode_varint w32 bytes.now ≡ Ok (r.0, r.1.now))
        (λ fault. decode_varint w32 bytes.now ≡ Err fault) }
{
    let [byte, behind @ ..] = bytes else {
        return Err(NumFault::Short);
    };
    if *byte < 128 {
        return Ok((u32::from(*byte), behind));
    }
    long_varint32(bytes)
}

/// Does what `next_varint32` does, byte by byte.
#[inline(never)]
fn long_varint32(bytes: &[u8]) -> Result<(u32, &[u8]), NumFault>
    ensures { MatchResult result
        (λ r. decode_varint w32 bytes.now ≡ Ok (r.0, r.1.now))
        (λ fault. decode_varint w32 bytes.now ≡ Err fault) }
{
    decode_varint32(bytes)
}

/// Sixty-four bits in front of bytes.
#[tactic(auto, using(crate::proofs::OneByte::one_byte_64))]
#[inline(always)]
pub(crate) fn next_varint64(bytes: &[u8]) -> Result<(u64, &[u8]), NumFault>
    ensures { MatchResult result
        (λ r. decode_varint w64 bytes.now ≡ Ok (r.0, r.1.now))
        (λ fault. decode_varint w64 bytes.now ≡ Err fault) }
{
    let [byte, behind @ ..] = bytes else {
        return Err(NumFault::Short);
    };
    if *byte < 128 {
        return Ok((u64::from(*byte), behind));
    }
    long_varint64(bytes)
}

/// Does what `next_varint64` does, byte by byte.
#[inline(never)]
fn long_varint64(bytes: &[u8]) -> Result<(u64, &[u8]), NumFault>
    ensures { MatchResult result
        (λ r. decode_varint w64 bytes.now ≡ Ok (r.0, r.1.now))
        (λ fault. decode_varint w64 bytes.now ≡ Err fault) }
{
    decode_varint64(bytes)
}

/// Appends the shortest encoding of a number of 32 bits.
#[inline(always)]
pub(crate) fn append_varint32(into: &mut Vec<u8>, number: u32) -> Result<(), AllocError>
    ensures ok { OnOk result (into.new.items ≡ into.old.items ++ varint_bytes w32 number) }
    ensures err { OnErr result (into.new.items ≡ into.old.items) }
{
    if number < 128 {
        return put_u8(into, number as u8);
    }
    append_long_varint32(into, number)
}

/// Does what `append_varint32` does, group by group.
#[inline(never)]
fn append_long_varint32(into: &mut Vec<u8>, number: u32) -> Result<(), AllocError>
    ensures ok { OnOk result (into.new.items ≡ into.old.items ++ varint_bytes w32 number) }
    ensures err { OnErr result (into.new.items ≡ into.old.items) }
{
    put_varint32(into, number)
}

/// Appends the shortest encoding of a number of 64 bits.
#[inline(always)]
pub(crate) fn append_varint64(into: &mut Vec<u8>, number: u64) -> Result<(), AllocError>
    ensures ok { OnOk result (into.new.items ≡ into.old.items ++ varint_bytes w64 number) }
    ensures err { OnErr result (into.new.items ≡ into.old.items) }
{
    if number < 128 {
        return put_u8(into, number as u8);
    }
    append_long_varint64(into, number)
}

/// Does what `append_varint64` does, group by group.
#[inline(never)]
fn append_long_varint64(into: &mut Vec<u8>, number: u64) -> Result<(), AllocError>
    ensures ok { OnOk result (into.new.items ≡ into.old.items ++ varint_bytes w64 number) }
    ensures err { OnErr result (into.new.items ≡ into.old.items) }
{
    put_varint64(into, number)
}
