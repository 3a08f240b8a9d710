//! Texts that the program writes and reads back: lines, decimals, hexadecimal, quoted bytes.
//!
//! A call appends exactly its text to a vector, or leaves the vector's bytes as they were. It doesn't
//! print and knows no format: a caller puts its lines together from these pieces.
//!
//! ```
//! decimal(&mut text, -7)?;                 // -7
//! hex(&mut text, b"\x0fz")?;               // 0f7a
//! quoted(&mut text, b"a \"b\"")?;          // "a \"b\""
//! line(&mut text, b"end")?;                // end, and a newline
//! let number = read_decimal(b"-7");        // Some(-7)
//! let bytes = read_hex(alloc, b"0F7a")?;
//! ```
#![tactic(auto)]

ghost use Rattle.std.specs.Prelude.{◌≡◌, ◌≢◌, ◌*◌, ℕ, ℤ, List, ◌++◌, length, OnOk, OnErr, IfOk, FitsSigned, None, Some, Err, take, vec_len, pos, Option, ◌^◌, ◌<◌};
ghost use Rattle.std.specs.Int.{w128};
ghost use Rattle.hex.specs.Hex.{IsBytes};
ghost use Rattle.text_out.specs.Decimal.{natural_of, decimal_of, IsPlainNumeral, ReadsDecimal};
ghost use Rattle.text_out.specs.Hex.{hex_of, unhex_of};
ghost use Rattle.text_out.specs.Line.{line_of};
ghost use Rattle.text_out.specs.Quoted.{quoted_byte, quoted_of};

use hex::FromHexError;
use itoa::Buffer;
use std::alloc::{AllocError, Global};
use thiserror::Error;

const HEX_DIGITS: &[u8; 16] = b"0123456789abcdef";

/// Why a text couldn't be read as hexadecimal.
#[derive(Clone, Copy, Debug, PartialEq, Eq, Error)]
pub enum HexFault {
    /// The text isn't pairs of hexadecimal digits.
    #[error("the text isn't pairs of hexadecimal digits")]
    Bad,
    /// The bytes found no room in memory.
    #[error("out of memory")]
    NoMemory,
}

impl From<FromHexError> for HexFault {
    ghost use Rattle.hex.specs.declared.error.FromHexError.TheVariants.{OutOfMemory};
    ghost use Rattle.text_out.specs.declared.HexFault.TheVariants.{Bad};

    ghost from_gives = { λ error fault. fault ≡ Bad → error ≢ OutOfMemory };

    fn from(error: FromHexError) -> Self {
        match error {
            FromHexError::OutOfMemory => HexFault::NoMemory,
            _ => HexFault::Bad,
        }
    }
}

/// Appends a text and a newline.
pub fn line(into: &mut Vec<u8>, text: &[u8]) -> Result<(), AllocError>
    ensures ok { OnOk result (into.new.items ≡ into.old.items ++ line_of text.now) }
    ensures err { OnErr result (into.new.items ≡ into.old.items) }
{
    let start = into.len();
    into.extend_from_slice(text)?;
    if into.push(b'\n').is_err() {
        into.truncate(start);
        return Err(AllocError);
    }
    Ok(())
}

/// Appends a number of one digit.
#[tactic(auto, using(crate::proofs::DecimalLemmas::digit_is))]
fn digit(into: &mut Vec<u8>, n: u8) -> Result<(), AllocError>
    requires { n < 10 }
    ensures ok { OnOk result (into.new.items ≡ into.old.items ++ natural_of n) }
    ensures err { OnErr result (into.new.items ≡ into.old.items) }
{
    Ok(into.push(b'0' + n)?)
}

/// Appends a number as a decimal.
pub fn decimal(into: &mut Vec<u8>, n: i128) -> Result<(), AllocError>
    ensures ok { OnOk result (into.new.items ≡ into.old.items ++ decimal_of n) }
    ensures err { OnErr result (into.new.items ≡ into.old.items) }
{
    if let Ok(small) = u8::try_from(n) {
        if small < 10 {
            return digit(into, small);
        }
    }
    let mut buffer = Buffer::new();
    // The digits of 128 bits cost six times those of 64, which nearly every number fits.
    let text = match i64::try_from(n) {
        Ok(small) => buffer.format(small),
        Err(_) => buffer.format(n),
    };
    into.extend_from_slice(text.as_bytes())
}

/// Appends each byte as two hexadecimal digits in lower case.
pub fn hex(into: &mut Vec<u8>, bytes: &[u8]) -> Result<(), AllocError>
    ensures ok { OnOk result (into.new.items ≡ into.old.items ++ hex_of bytes.now) }
    ensures err { OnErr result (into.new.items ≡ into.old.items) }
{
    let start = into.len();
    let Some(end) = start.checked_add(bytes.len() * 2) else {
        return Err(AllocError);
    };
    into.resize(end, 0)?;
    let (_, room) = into.as_mut_slice().split_at_mut(start);
    write_hex(room, bytes);
    Ok(())
}

/// Writes each byte as two hexadecimal digits.
#[tactic(auto, using(crate::proofs::HexLemmas::encoded))]
fn write_hex(room: &mut [u8], bytes: &[u8])
    requires { length room.old ≡ 2 * length bytes.now }
    ensures { room.new ≡ hex_of bytes.now }
{
    let _ = hex::encode_to_slice(bytes, room);
}

/// The bytes that pairs of hexadecimal digits of either case spell.
pub fn read_hex(alloc: Global, text: &[u8]) -> Result<Vec<u8>, HexFault>
    ensures ok { IfOk result (λ bytes. unhex_of text.now ≡ Some bytes.items) }
    ensures bad { result ≡ Err HexFault.Bad → unhex_of text.now ≡ None }
{
    Ok(hex::decode(alloc, text)?)
}

/// Appends bytes between quotation marks.
pub fn quoted(into: &mut Vec<u8>, bytes: &[u8]) -> Result<(), AllocError>
    ensures ok { OnOk result (into.new.items ≡ into.old.items ++ quoted_of bytes.now) }
    ensures err { OnErr result (into.new.items ≡ into.old.items) }
{
    let start = into.len();
    let done = quote(into, bytes);
    if done.is_err() {
        into.truncate(start);
    }
    done
}

/// Does what `quoted` does, but leaves a part of the text where memory runs out.
fn quote(into: &mut Vec<u8>, bytes: &[u8]) -> Result<(), AllocError>
    ensures ok { OnOk result (into.new.items ≡ into.old.items ++ quoted_of bytes.now) }
    ensures err { OnErr result (take (vec_len into.old) into.new.items ≡ into.old.items) }
{
    into.push(b'"')?;
    for byte in bytes {
        quote_byte(into, *byte)?;
    }
    into.push(b'"')?;
    Ok(())
}

fn quote_byte(into: &mut Vec<u8>, byte: u8) -> Result<(), AllocError>
    ensures ok { OnOk result (into.new.items ≡ into.old.items ++ quoted_byte byte) }
    ensures err { OnErr result (into.new.items ≡ into.old.items) }
{
    match byte {
        b'"' => into.extend_from_slice(b"\\\""),
        b'\\' => into.extend_from_slice(b"\\\\"),
        0x20..=0x7e => Ok(into.push(byte)?),
        _ => {
            let high = HEX_DIGITS[byte as usize / 16];
            let low = HEX_DIGITS[byte as usize % 16];
            into.extend_from_slice(&[b'\\', b'x', high, low])
        }
    }
}

/// The number of a decimal: no zero in front, `-` only before a number below 0, no `+`.
pub fn read_decimal(text: &[u8]) -> Option<i128>
    ensures { ReadsDecimal text.now result }
{
    let Ok(text) = str::from_utf8(text) else {
        return None;
    };
    let Ok(n) = text.parse::<i128>() else {
        return None;
    };
    // What `parse` takes beyond decimals isn't printed the same.
    if Buffer::new().format(n) == text {
        Some(n)
    } else {
        None
    }
}

/// Everything that `hex` writes is read back by `read_hex`.
pub fn hex_is_read_back()
    ensures { (bytes : List ℕ) → IsBytes bytes → unhex_of (hex_of bytes) ≡ Some bytes }
{}

/// The decimal of each number of 128 bits is read as that number and no other.
pub fn decimal_is_read_back()
    ensures { (z : ℤ) (read : Option ℤ) → FitsSigned w128 z → ReadsDecimal (decimal_of z) read → read ≡ Some z }
{}

/// No number is read from two texts.
pub fn decimal_has_one_spelling()
    ensures { (z : ℤ) (a b : List ℕ) → ReadsDecimal a (Some z) → ReadsDecimal b (Some z) → a ≡ b }
{}

/// A decimal from 0 on is digits, of that value, with no zero in front of another digit.
pub fn decimal_is_plain()
    ensures { (n : ℕ) → n < 2 ^ 128 → IsPlainNumeral n (natural_of n) × (decimal_of (pos n) ≡ natural_of n) }
{}
