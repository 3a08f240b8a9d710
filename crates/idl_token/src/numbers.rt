//! Numbers: integers and doubles.
ghost use Rattle.std.specs.Prelude.{◌≡◌, ◌^◌, ◌<◌, ◌≤◌, nat_lt, not, max, pos, neg_ℤ, count_by, length, FitsSigned, IsTrue, if◌then◌else◌};
ghost use Rattle.std.specs.Int.{w64};
ghost use Rattle.std.specs.Char.{is_ascii_digit, is_ascii_hexdigit};
ghost use Rattle.std.specs.List.{prefix_len};
ghost use Rattle.idl_token.specs.Numbers.{sign_in, digits_in, digit_value, value_behind, is_hexadecimal, magnitude, int_of, behind_exponent_mark, is_big_int, is_big_double};
ghost use Rattle.idl_token.specs.Classes.{is_exponent_mark};
ghost use Rattle.idl_token.specs.Lengths.{decimal_len, hexadecimal_len, exponent_len, fraction_len, unsigned_double_len, double_len, int_len};

use crate::classes::{byte_at, is_exponent_mark, is_plus_or_minus};
use crate::runs::{ByteRun, run_len};

/// The bytes of a sign in front.
pub fn sign_in(text: &[u8]) -> usize
    ensures value { result ≡ sign_in text.now }
    ensures within { result ≤ length text.now }
{
    if is_plus_or_minus(byte_at(text, 0)) {
        1
    } else {
        0
    }
}

/// The digits in front.
pub(crate) fn digits_in(text: &[u8]) -> usize
    ensures value { result ≡ digits_in text.now }
    ensures within { result ≤ length text.now }
{
    run_len(ByteRun::Digits, text)
}

/// The bytes of the longest sign and digits in front.
pub(crate) fn decimal_len(text: &[u8]) -> usize
    ensures value { result ≡ decimal_len text.now }
    ensures within { result ≤ length text.now }
{
    let sign = sign_in(text);
    let (_, unsigned) = text.split_at(sign);
    let digits = digits_in(unsigned);
    if digits > 0 { sign + digits } else { 0 }
}

fn hexadecimal_digits_in(text: &[u8]) -> usize
    ensures value { result ≡ prefix_len is_ascii_hexdigit text.now }
    ensures within { result ≤ length text.now }
{
    run_len(ByteRun::HexDigits, text)
}

/// The bytes of the longest `0x` and digits in front.
pub(crate) fn hexadecimal_len(text: &[u8]) -> usize
    ensures value { result ≡ hexadecimal_len text.now }
    ensures within { result ≤ length text.now }
{
    if byte_at(text, 0) != b'0' || byte_at(text, 1) != b'x' {
        return 0;
    }
    let (_, inside) = text.split_at(2);
    let digits = hexadecimal_digits_in(inside);
    if digits > 0 { 2 + digits } else { 0 }
}

fn exponent_len(text: &[u8]) -> usize
    ensures value { result ≡ exponent_len text.now }
    ensures within { result ≤ length text.now }
{
    if !is_exponent_mark(byte_at(text, 0)) {
        return 0;
    }
    let (_, inside) = text.split_at(1);
    let digits = decimal_len(inside);
    if digits > 0 { 1 + digits } else { 0 }
}

fn fraction_len(text: &[u8]) -> usize
    ensures value { result ≡ fraction_len text.now }
    ensures within { result ≤ length text.now }
{
    if byte_at(text, 0) != b'.' {
        return 0;
    }
    let (_, inside) = text.split_at(1);
    let digits = digits_in(inside);
    if digits == 0 {
        return 0;
    }
    let (_, behind) = inside.split_at(digits);
    1 + digits + exponent_len(behind)
}

/// The bytes of the longest fraction, or exponent where digits stand before it.
fn longest_end(behind: &[u8], digits: bool) -> usize
    ensures value { result ≡ max (if digits then exponent_len behind.now else 0) (fraction_len behind.now) }
    ensures within { result ≤ length behind.now }
{
    let exponent = if digits { exponent_len(behind) } else { 0 };
    exponent.max(fraction_len(behind))
}

#[tactic(auto, unfolding(crate::specs::Lengths::unsigned_double_len))]
fn unsigned_double_len(text: &[u8]) -> usize
    ensures value { result ≡ unsigned_double_len text.now }
    ensures within { result ≤ length text.now }
{
    let digits = digits_in(text);
    let (_, behind) = text.split_at(digits);
    let end = longest_end(behind, digits > 0);
    if end > 0 { digits + end } else { 0 }
}

/// The bytes of the longest double in front.
#[tactic(auto, unfolding(crate::specs::Lengths::double_len))]
pub(crate) fn double_len(text: &[u8]) -> usize
    ensures value { result ≡ double_len text.now }
    ensures within { result ≤ length text.now }
{
    let sign = sign_in(text);
    let (_, unsigned) = text.split_at(sign);
    let double = unsigned_double_len(unsigned);
    if double > 0 { sign + double } else { 0 }
}

/// The bytes of the longest integer in front.
#[tactic(auto, unfolding(crate::specs::Lengths::int_len))]
pub(crate) fn int_len(text: &[u8]) -> usize
    ensures value { result ≡ int_len text.now }
    ensures within { result ≤ length text.now }
{
    decimal_len(text).max(hexadecimal_len(text))
}

/// The value of a hexadecimal digit of either case.
pub(crate) fn digit_value(byte: u8) -> u8
    ensures { result ≡ digit_value byte }
{
    if byte.is_ascii_digit() {
        byte - b'0'
    } else if byte >= b'a' {
        byte - b'a' + 10
    } else {
        byte.saturating_sub(b'A' - 10)
    }
}

/// Whether digits write a number above `most`.
#[tactic(auto, using(crate::proofs::Values::value_behind_grows))]
fn is_above(digits: &[u8], radix: u64, most: u64) -> bool
    requires { 0 < radix }
    ensures { result ≡ nat_lt most (value_behind radix 0 digits.now) }
{
    let mut value = 0u64;
    for byte in digits {
        let Some(shifted) = value.checked_mul(radix) else {
            return true;
        };
        let Some(next) = shifted.checked_add(u64::from(digit_value(*byte))) else {
            return true;
        };
        if next > most {
            return true;
        }
        value = next;
    }
    false
}

/// Whether an integer lies outside 64 bits.
#[tactic(auto, unfolding(crate::specs::Numbers::is_big_int))]
pub fn is_big_int(int: &[u8]) -> bool
    ensures { result ≡ is_big_int int.now }
{
    let most = if byte_at(int, 0) == b'-' {
        1 << 63
    } else {
        (1 << 63) - 1
    };
    if is_hexadecimal(int) {
        let (_, digits) = int.split_at(2);
        is_above(digits, 16, most)
    } else {
        let (_, digits) = int.split_at(sign_in(int));
        is_above(digits, 10, most)
    }
}

/// Whether a text is `0x` and hexadecimal digits.
pub fn is_hexadecimal(text: &[u8]) -> bool
    ensures value { result ≡ is_hexadecimal text.now }
    ensures long { IsTrue result → 2 ≤ length text.now }
{
    if byte_at(text, 0) != b'0' || byte_at(text, 1) != b'x' {
        return false;
    }
    let (_, inside) = text.split_at(2);
    inside.len() > 0 && hexadecimal_digits_in(inside) == inside.len()
}

/// The number of an integer written in digits, which has to have a place in 64 bits.
pub fn int_value(int: &[u8]) -> i64
    requires { FitsSigned w64 (int_of int.now) }
    ensures { result ≡ int_of int.now }
{
    let size = magnitude(int);
    signed(byte_at(int, 0) == b'-', size)
}

fn magnitude(int: &[u8]) -> u64
    requires { magnitude int.now < 2 ^ 64 }
    ensures { result ≡ magnitude int.now }
{
    if is_hexadecimal(int) {
        let (_, digits) = int.split_at(2);
        digits_value(digits, 16)
    } else {
        let (_, digits) = int.split_at(sign_in(int));
        digits_value(digits, 10)
    }
}

/// The number that digits write.
fn digits_value(digits: &[u8], radix: u64) -> u64
    requires some { 0 < radix }
    requires fits { value_behind radix 0 digits.now < 2 ^ 64 }
    ensures { result ≡ value_behind radix 0 digits.now }
{
    let mut value = 0u64;
    for byte in digits {
        value = value * radix + u64::from(digit_value(*byte));
    }
    value
}

fn signed(negative: bool, size: u64) -> i64
    requires { FitsSigned w64 (if negative then neg_ℤ (pos size) else pos size) }
    ensures { result ≡ if negative then neg_ℤ (pos size) else pos size }
{
    let size = i128::from(size);
    let number = if negative { -size } else { size };
    number as i64
}

/// Whether a double has too many digits or too large an exponent.
#[tactic(auto, unfolding(crate::specs::Numbers::is_big_double))]
pub fn is_big_double(double: &[u8]) -> bool
    ensures { result ≡ is_big_double double.now }
{
    if all_digits_in(double) > 40 {
        return true;
    }
    let exponent = behind_exponent_mark(double);
    let (_, digits) = exponent.split_at(sign_in(exponent));
    is_above(digits, 10, 99)
}

fn all_digits_in(text: &[u8]) -> usize
    ensures { result ≡ count_by is_ascii_digit text.now }
{
    text.iter().filter(|byte| byte.is_ascii_digit()).count()
}

fn bytes_before_exponent_mark(text: &[u8]) -> usize
    ensures value { result ≡ prefix_len (λ b. not (is_exponent_mark b)) text.now }
    ensures within { result ≤ length text.now }
{
    run_len(ByteRun::Mantissa, text)
}

fn behind_exponent_mark(text: &[u8]) -> &[u8]
    ensures { result.now ≡ behind_exponent_mark text.now }
{
    let before = bytes_before_exponent_mark(text);
    let (_, rest) = text.split_at((before + 1).min(text.len()));
    rest
}
