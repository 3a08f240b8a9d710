//! Numbers of a variable number of bytes (Thrift compact protocol, 'Integer encoding').

ghost use Rattle.std.specs.Prelude.{◌≡◌, ◌≤◌, ◌%◌, ◌^◌, length, ◌++◌, Ok, Err, MatchResult, IfOk, OnErr, OnOk};
ghost use Rattle.std.specs.Int.{w32, w64};
ghost use Rattle.wire_num.specs.Decoding.{decoded_as};
ghost use Rattle.wire_num.specs.Varint.{group_sum, decode_groups, decode_varint, groups_of, varint_bytes};

use super::fault::NumFault;
use std::alloc::AllocError;

/// The most bytes of a number of 32 bits.
const LONGEST_32: usize = 5;

/// The most bytes of a number of 64 bits.
const LONGEST_64: usize = 10;

/// Thirty-two bits in 1 to 5 bytes, and the bytes behind them; bits above the 32nd don't count.
pub fn decode_varint32(bytes: &[u8]) -> Result<(u32, &[u8]), NumFault>
    ensures read { MatchResult result
        (λ r. decode_varint w32 bytes.now ≡ Ok (r.0, r.1.now))
        (λ fault. decode_varint w32 bytes.now ≡ Err fault) }
    ensures behind { IfOk result (λ r. length r.1.now ≤ length bytes.now) }
{
    let (number, behind) = decode_number(bytes, LONGEST_32)?;
    Ok(((number % (1 << 32)) as u32, behind))
}

/// Sixty-four bits in 1 to 10 bytes, and the bytes behind them; bits above the 64th don't count.
pub fn decode_varint64(bytes: &[u8]) -> Result<(u64, &[u8]), NumFault>
    ensures read { MatchResult result
        (λ r. decode_varint w64 bytes.now ≡ Ok (r.0, r.1.now))
        (λ fault. decode_varint w64 bytes.now ≡ Err fault) }
    ensures behind { IfOk result (λ r. length r.1.now ≤ length bytes.now) }
{
    decode_number(bytes, LONGEST_64)
}

/// The lowest 64 bits of a number of at most so many bytes, and the bytes behind it.
fn decode_number(bytes: &[u8], most: usize) -> Result<(u64, &[u8]), NumFault>
    ensures read { MatchResult result
        (λ r. decoded_as (λ groups. group_sum groups % 2 ^ 64) (decode_groups most bytes.now) ≡ Ok (r.0, r.1.now))
        (λ fault. decoded_as (λ groups. group_sum groups % 2 ^ 64) (decode_groups most bytes.now) ≡ Err fault) }
    ensures behind { IfOk result (λ r. length r.1.now ≤ length bytes.now) }
{
    let mut number: u64 = 0;
    let mut weight: u64 = 1;
    for i in 0..most {
        if i == bytes.len() {
            return Err(NumFault::Short);
        }
        let byte = bytes[i];
        number = number.wrapping_add(weight.wrapping_mul(u64::from(byte % 128)));
        if byte < 128 {
            return Ok((number, bytes.split_at(i + 1).1));
        }
        weight = weight.wrapping_mul(128);
    }
    Err(NumFault::LongVarint)
}

/// Appends the shortest encoding of a number, of 1 to 5 bytes.
pub fn put_varint32(into: &mut Vec<u8>, number: u32) -> Result<(), AllocError>
    ensures ok { OnOk result (into.new.items ≡ into.old.items ++ varint_bytes w32 number) }
    ensures err { OnErr result (into.new.items ≡ into.old.items) }
{
    put_groups(into, u64::from(number), LONGEST_32)
}

/// Appends the shortest encoding of a number, of 1 to 10 bytes.
pub fn put_varint64(into: &mut Vec<u8>, number: u64) -> Result<(), AllocError>
    ensures ok { OnOk result (into.new.items ≡ into.old.items ++ varint_bytes w64 number) }
    ensures err { OnErr result (into.new.items ≡ into.old.items) }
{
    put_groups(into, number, LONGEST_64)
}

/// Appends the groups of a number, at most so many.
fn put_groups(into: &mut Vec<u8>, number: u64, most: usize) -> Result<(), AllocError>
    requires { most ≤ 10 }
    ensures ok { OnOk result (into.new.items ≡ into.old.items ++ groups_of most number) }
    ensures err { OnErr result (into.new.items ≡ into.old.items) }
{
    let mut bytes = [0u8; LONGEST_64];
    let mut rest = number;
    for i in 0..most {
        if rest < 128 {
            bytes[i] = rest as u8;
            return into.extend_from_slice(bytes.split_at(i + 1).0);
        }
        bytes[i] = 128 + (rest % 128) as u8;
        rest /= 128;
    }
    into.extend_from_slice(bytes.split_at(most).0)
}
