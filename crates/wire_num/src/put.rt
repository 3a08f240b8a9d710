//! Appending numbers of a fixed width, the highest byte first, signed ones as two's complement (Thrift binary protocol,
//! 'Integer encoding').

ghost use Rattle.std.specs.Prelude.{◌≡◌, ◌∷◌, [], ◌++◌, OnErr, OnOk};
ghost use Rattle.std.specs.Int.{w16, w32, w64, w128};
ghost use Rattle.wire_num.specs.Fixed.{unsigned_bytes, signed_bytes};
ghost use Rattle.wire_num.specs.LowFirst.{low_first_bytes};

use byteorder::{BigEndian, ByteOrder, LittleEndian};
use std::alloc::AllocError;

/// Appends one byte.
pub fn put_u8(into: &mut Vec<u8>, number: u8) -> Result<(), AllocError>
    ensures ok { OnOk result (into.new.items ≡ into.old.items ++ number ∷ []) }
    ensures err { OnErr result (into.new.items ≡ into.old.items) }
{
    into.push(number)?;
    Ok(())
}

/// Appends the 2 bytes of a number.
pub fn put_i16(into: &mut Vec<u8>, number: i16) -> Result<(), AllocError>
    ensures ok { OnOk result (into.new.items ≡ into.old.items ++ signed_bytes w16 number) }
    ensures err { OnErr result (into.new.items ≡ into.old.items) }
{
    let mut bytes = [0u8; 2];
    BigEndian::write_i16(&mut bytes, number);
    into.extend_from_slice(&bytes)
}

/// Appends the 4 bytes of a number.
pub fn put_i32(into: &mut Vec<u8>, number: i32) -> Result<(), AllocError>
    ensures ok { OnOk result (into.new.items ≡ into.old.items ++ signed_bytes w32 number) }
    ensures err { OnErr result (into.new.items ≡ into.old.items) }
{
    let mut bytes = [0u8; 4];
    BigEndian::write_i32(&mut bytes, number);
    into.extend_from_slice(&bytes)
}

/// Appends the 8 bytes of a number.
pub fn put_i64(into: &mut Vec<u8>, number: i64) -> Result<(), AllocError>
    ensures ok { OnOk result (into.new.items ≡ into.old.items ++ signed_bytes w64 number) }
    ensures err { OnErr result (into.new.items ≡ into.old.items) }
{
    let mut bytes = [0u8; 8];
    BigEndian::write_i64(&mut bytes, number);
    into.extend_from_slice(&bytes)
}

/// Appends the 8 bytes of an unsigned number.
pub fn put_be64(into: &mut Vec<u8>, number: u64) -> Result<(), AllocError>
    ensures ok { OnOk result (into.new.items ≡ into.old.items ++ unsigned_bytes w64 number) }
    ensures err { OnErr result (into.new.items ≡ into.old.items) }
{
    let mut bytes = [0u8; 8];
    BigEndian::write_u64(&mut bytes, number);
    into.extend_from_slice(&bytes)
}

/// Appends the 16 bytes of an unsigned number.
pub fn put_be128(into: &mut Vec<u8>, number: u128) -> Result<(), AllocError>
    ensures ok { OnOk result (into.new.items ≡ into.old.items ++ unsigned_bytes w128 number) }
    ensures err { OnErr result (into.new.items ≡ into.old.items) }
{
    let mut bytes = [0u8; 16];
    BigEndian::write_u128(&mut bytes, number);
    into.extend_from_slice(&bytes)
}

/// Appends the 8 bytes of an unsigned number, the lowest byte first (Thrift compact protocol, 'Double encoding').
pub fn put_le64(into: &mut Vec<u8>, number: u64) -> Result<(), AllocError>
    ensures ok { OnOk result (into.new.items ≡ into.old.items ++ low_first_bytes w64 number) }
    ensures err { OnErr result (into.new.items ≡ into.old.items) }
{
    let mut bytes = [0u8; 8];
    LittleEndian::write_u64(&mut bytes, number);
    into.extend_from_slice(&bytes)
}
