//! Decoding a number in front of bytes.

ghost use Rattle.std.specs.Prelude.{◌≡◌, ◌≤◌, length, Ok, Err, MatchResult, IfOk};
ghost use Rattle.std.specs.Int.{w8, w16, w32, w64, w128};
ghost use Rattle.wire_num.specs.Decoding.{decode_bytes, decode_byte, decode_unsigned, decode_signed};
ghost use Rattle.wire_num.specs.LowFirst.{decode_low_first};

use super::fault::NumFault;
use byteorder::{BigEndian, ByteOrder, LittleEndian};

/// The first bytes, so many, and those behind them.
pub fn decode_bytes(bytes: &[u8], size: usize) -> Result<(&[u8], &[u8]), NumFault>
    ensures read { MatchResult result
        (λ r. decode_bytes size bytes.now ≡ Ok (r.0.now, r.1.now))
        (λ fault. decode_bytes size bytes.now ≡ Err fault) }
    ensures size { IfOk result (λ r. length r.0.now ≡ size) }
    ensures behind { IfOk result (λ r. length r.1.now ≤ length bytes.now) }
{
    if bytes.len() < size {
        return Err(NumFault::Short);
    }
    Ok(bytes.split_at(size))
}

/// A byte, and those behind it.
pub fn decode_u8(bytes: &[u8]) -> Result<(u8, &[u8]), NumFault>
    ensures read { MatchResult result
        (λ r. decode_byte bytes.now ≡ Ok (r.0, r.1.now))
        (λ fault. decode_byte bytes.now ≡ Err fault) }
    ensures behind { IfOk result (λ r. length r.1.now ≤ length bytes.now) }
{
    let (front, behind) = decode_bytes(bytes, 1)?;
    Ok((front[0], behind))
}

/// Eight bits as a signed number, and the bytes behind it.
pub fn decode_i8(bytes: &[u8]) -> Result<(i8, &[u8]), NumFault>
    ensures read { MatchResult result
        (λ r. decode_signed w8 bytes.now ≡ Ok (r.0, r.1.now))
        (λ fault. decode_signed w8 bytes.now ≡ Err fault) }
    ensures behind { IfOk result (λ r. length r.1.now ≤ length bytes.now) }
{
    let (front, behind) = decode_bytes(bytes, 1)?;
    Ok((i8::from_be_bytes([front[0]]), behind))
}

/// Sixteen bits, and the bytes behind them.
pub fn decode_i16(bytes: &[u8]) -> Result<(i16, &[u8]), NumFault>
    ensures read { MatchResult result
        (λ r. decode_signed w16 bytes.now ≡ Ok (r.0, r.1.now))
        (λ fault. decode_signed w16 bytes.now ≡ Err fault) }
    ensures behind { IfOk result (λ r. length r.1.now ≤ length bytes.now) }
{
    let (front, behind) = decode_bytes(bytes, 2)?;
    Ok((BigEndian::read_i16(front), behind))
}

/// Thirty-two bits, and the bytes behind them.
pub fn decode_i32(bytes: &[u8]) -> Result<(i32, &[u8]), NumFault>
    ensures read { MatchResult result
        (λ r. decode_signed w32 bytes.now ≡ Ok (r.0, r.1.now))
        (λ fault. decode_signed w32 bytes.now ≡ Err fault) }
    ensures behind { IfOk result (λ r. length r.1.now ≤ length bytes.now) }
{
    let (front, behind) = decode_bytes(bytes, 4)?;
    Ok((BigEndian::read_i32(front), behind))
}

/// Sixty-four bits, and the bytes behind them.
pub fn decode_i64(bytes: &[u8]) -> Result<(i64, &[u8]), NumFault>
    ensures read { MatchResult result
        (λ r. decode_signed w64 bytes.now ≡ Ok (r.0, r.1.now))
        (λ fault. decode_signed w64 bytes.now ≡ Err fault) }
    ensures behind { IfOk result (λ r. length r.1.now ≤ length bytes.now) }
{
    let (front, behind) = decode_bytes(bytes, 8)?;
    Ok((BigEndian::read_i64(front), behind))
}

/// Sixty-four bits as an unsigned number, and the bytes behind them.
pub fn decode_be64(bytes: &[u8]) -> Result<(u64, &[u8]), NumFault>
    ensures read { MatchResult result
        (λ r. decode_unsigned w64 bytes.now ≡ Ok (r.0, r.1.now))
        (λ fault. decode_unsigned w64 bytes.now ≡ Err fault) }
    ensures behind { IfOk result (λ r. length r.1.now ≤ length bytes.now) }
{
    let (front, behind) = decode_bytes(bytes, 8)?;
    Ok((BigEndian::read_u64(front), behind))
}

/// A hundred and twenty-eight bits as an unsigned number, and the bytes behind them.
pub fn decode_be128(bytes: &[u8]) -> Result<(u128, &[u8]), NumFault>
    ensures read { MatchResult result
        (λ r. decode_unsigned w128 bytes.now ≡ Ok (r.0, r.1.now))
        (λ fault. decode_unsigned w128 bytes.now ≡ Err fault) }
    ensures behind { IfOk result (λ r. length r.1.now ≤ length bytes.now) }
{
    let (front, behind) = decode_bytes(bytes, 16)?;
    Ok((BigEndian::read_u128(front), behind))
}

/// Sixty-four bits as an unsigned number, the lowest byte first, and the bytes behind it.
pub fn decode_le64(bytes: &[u8]) -> Result<(u64, &[u8]), NumFault>
    ensures read { MatchResult result
        (λ r. decode_low_first w64 bytes.now ≡ Ok (r.0, r.1.now))
        (λ fault. decode_low_first w64 bytes.now ≡ Err fault) }
    ensures behind { IfOk result (λ r. length r.1.now ≤ length bytes.now) }
{
    let (front, behind) = decode_bytes(bytes, 8)?;
    Ok((LittleEndian::read_u64(front), behind))
}
