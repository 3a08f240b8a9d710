//! Numbers at a place of bytes.

ghost use Rattle.std.specs.Prelude.{◌≡◌, ◌≤◌, length};
ghost use Rattle.std.specs.Int.{w16, w32, w64};
ghost use Rattle.wire_num.specs.Decoding.{decode_at, decode_byte, decode_unsigned, decode_signed};
ghost use Rattle.wire_num.specs.LowFirst.{decode_low_first};
ghost use Rattle.wire_num.specs.Varint.{decode_varint};

use super::decode::{decode_be64, decode_i16, decode_i32, decode_i64, decode_le64, decode_u8};
use super::fault::NumFault;
use super::varint::{decode_varint32, decode_varint64};

/// The byte at `at`, and the place behind it.
pub fn u8_at(bytes: &[u8], at: usize) -> Result<(u8, usize), NumFault>
    requires { at ≤ length bytes.now }
    ensures { result ≡ decode_at decode_byte bytes.now at }
{
    let (number, behind) = decode_u8(bytes.split_at(at).1)?;
    Ok((number, bytes.len() - behind.len()))
}

/// The 16 bits at `at`, and the place behind them.
pub fn i16_at(bytes: &[u8], at: usize) -> Result<(i16, usize), NumFault>
    requires { at ≤ length bytes.now }
    ensures { result ≡ decode_at (decode_signed w16) bytes.now at }
{
    let (number, behind) = decode_i16(bytes.split_at(at).1)?;
    Ok((number, bytes.len() - behind.len()))
}

/// The 32 bits at `at`, and the place behind them.
pub fn i32_at(bytes: &[u8], at: usize) -> Result<(i32, usize), NumFault>
    requires { at ≤ length bytes.now }
    ensures { result ≡ decode_at (decode_signed w32) bytes.now at }
{
    let (number, behind) = decode_i32(bytes.split_at(at).1)?;
    Ok((number, bytes.len() - behind.len()))
}

/// The 64 bits at `at`, and the place behind them.
pub fn i64_at(bytes: &[u8], at: usize) -> Result<(i64, usize), NumFault>
    requires { at ≤ length bytes.now }
    ensures { result ≡ decode_at (decode_signed w64) bytes.now at }
{
    let (number, behind) = decode_i64(bytes.split_at(at).1)?;
    Ok((number, bytes.len() - behind.len()))
}

/// The 64 bits at `at` as an unsigned number, and the place behind them.
pub fn be64_at(bytes: &[u8], at: usize) -> Result<(u64, usize), NumFault>
    requires { at ≤ length bytes.now }
    ensures { result ≡ decode_at (decode_unsigned w64) bytes.now at }
{
    let (number, behind) = decode_be64(bytes.split_at(at).1)?;
    Ok((number, bytes.len() - behind.len()))
}

/// The 64 bits at `at` as an unsigned number, the lowest byte first, and the place behind them.
pub fn le64_at(bytes: &[u8], at: usize) -> Result<(u64, usize), NumFault>
    requires { at ≤ length bytes.now }
    ensures { result ≡ decode_at (decode_low_first w64) bytes.now at }
{
    let (number, behind) = decode_le64(bytes.split_at(at).1)?;
    Ok((number, bytes.len() - behind.len()))
}

/// The varint of 32 bits at `at`, and the place behind it. Short: fewer than 5 bytes remain, and none of them ends it.
/// LongVarint: at least 5 remain, and none of the first 5 ends it.
pub fn varint32_at(bytes: &[u8], at: usize) -> Result<(u32, usize), NumFault>
    requires { at ≤ length bytes.now }
    ensures { result ≡ decode_at (decode_varint w32) bytes.now at }
{
    let (number, behind) = decode_varint32(bytes.split_at(at).1)?;
    Ok((number, bytes.len() - behind.len()))
}

/// The varint of 64 bits at `at`, and the place behind it. Short: fewer than 10 bytes remain, and none of them ends it.
/// LongVarint: at least 10 remain, and none of the first 10 ends it.
pub fn varint64_at(bytes: &[u8], at: usize) -> Result<(u64, usize), NumFault>
    requires { at ≤ length bytes.now }
    ensures { result ≡ decode_at (decode_varint w64) bytes.now at }
{
    let (number, behind) = decode_varint64(bytes.split_at(at).1)?;
    Ok((number, bytes.len() - behind.len()))
}
