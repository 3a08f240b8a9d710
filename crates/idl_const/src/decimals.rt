//! Numbers that are written with a fraction or an exponent, decided on their digits: which of them are whole, and how large those are.

ghost use Rattle.std.specs.Prelude.{◌≡◌, ◌^◌, ◌*◌, ◌≤◌, ◌+◌, ◌++◌, not, length, IfOk};
ghost use Rattle.std.specs.List.{prefix_len};
ghost use Rattle.std.specs.Option.{option_map};
ghost use Rattle.idl_token.specs.Numbers.{digits_in, digit_value, value_behind, behind_digits, behind_exponent_mark, int_of};
ghost use Rattle.idl_token.specs.Classes.{is_exponent_mark};
ghost use Rattle.check_model.specs.WholeDoubles.{decimal_in, front_digits, fraction_digits, places_up, places_down, whole_number};
ghost use Rattle.idl_const.specs.Digits.{AreDigits, capped};

use idl_token::{
    big_integers_are_outside_64_bits, byte_at, int_value, is_big_int, is_exponent_mark,
};
use std::alloc::AllocError;

/// One more than the greatest number up to which each whole number is a double. All above it are the same here.
const CAP: u64 = 0x20_0000_0000_0001;

/// The digits in front.
fn digits_in(text: &[u8]) -> usize
    ensures value { result ≡ digits_in text.now }
    ensures within { result ≤ length text.now }
{
    text.iter().take_while(|byte| byte.is_ascii_digit()).count()
}

/// The digits in front, and what stands behind them.
fn front_digits(text: &[u8]) -> (&[u8], &[u8])
    ensures front { result.0.now ≡ front_digits text.now }
    ensures behind { result.1.now ≡ behind_digits text.now }
    ensures digits { AreDigits result.0.now }
{
    text.split_at(digits_in(text))
}

/// The digits behind the point, where the text begins with it.
fn fraction_digits(text: &[u8]) -> &[u8]
    ensures value { result.now ≡ fraction_digits text.now }
    ensures digits { AreDigits result.now }
{
    if byte_at(text, 0) != b'.' {
        return &[];
    }
    let (_, inside) = text.split_at(1.min(text.len()));
    front_digits(inside).0
}

/// The bytes before the first mark of an exponent.
fn before_exponent_mark(text: &[u8]) -> usize
    ensures value { result ≡ prefix_len (λ b. not (is_exponent_mark b)) text.now }
    ensures within { result ≤ length text.now }
{
    text.iter()
        .take_while(|byte| !is_exponent_mark(**byte))
        .count()
}

/// What stands behind the first mark of an exponent.
fn behind_exponent_mark(text: &[u8]) -> &[u8]
    ensures { result.now ≡ behind_exponent_mark text.now }
{
    let before = before_exponent_mark(text);
    let (_, rest) = text.split_at((before + 1).min(text.len()));
    rest
}

/// The exponent that a text writes; want of memory where it doesn't have 64 bits.
fn exponent_of(text: &[u8]) -> Result<i64, AllocError>
    ensures { IfOk result (λ n. n ≡ int_of text.now) }
{
    big_integers_are_outside_64_bits();
    if is_big_int(text) {
        return Err(AllocError);
    }
    Ok(int_value(text))
}

/// The value of a digit.
fn digit_value(byte: u8) -> u8
    ensures { result ≡ digit_value byte }
{
    if byte.is_ascii_digit() {
        byte - b'0'
    } else if byte >= b'a' {
        byte - b'a' + 10
    } else {
        byte.saturating_sub(b'A' - 10)
    }
}

/// The number that digits write behind those of another, up to the cap.
fn read_digits(before: u64, digits: &[u8]) -> u64
    requires { before ≤ CAP }
    ensures { result ≡ capped (value_behind 10 before digits.now) }
{
    let mut value = before;
    for byte in digits {
        value = (value * 10 + u64::from(digit_value(*byte))).min(CAP);
    }
    value
}

/// A number with so many zeros behind it, up to the cap, which one above 0 reaches in a few steps.
fn with_zeros(number: u64, places: u64) -> u64
    requires { number ≤ CAP }
    ensures { result ≡ capped (number * 10 ^ places) }
{
    let mut value = number;
    for place in 0..places {
        if value == 0 {
            return 0;
        }
        if value == CAP {
            return CAP;
        }
        value = (value * 10).min(CAP);
    }
    value
}

/// The number of digits whose point moves to the right, where it is whole.
fn moved_right(front: &[u8], fraction: &[u8], places: u64) -> Option<u64>
    requires { AreDigits fraction.now }
    ensures { result ≡ option_map capped (whole_number (record { digits = value_behind 10 0 (front.now ++ fraction.now); up = places; down = length fraction.now })) }
{
    let taken = places.min(fraction.len() as u64);
    let (more, rest) = fraction.split_at(taken as usize);
    if read_digits(0, rest) != 0 {
        return None;
    }
    let number = read_digits(read_digits(0, front), more);
    Some(with_zeros(number, places - taken))
}

/// The number of digits whose point moves to the left, where it is whole.
fn moved_left(front: &[u8], fraction: &[u8], places: u64) -> Option<u64>
    requires front { AreDigits front.now }
    requires fraction { AreDigits fraction.now }
    ensures { result ≡ option_map capped (whole_number (record { digits = value_behind 10 0 (front.now ++ fraction.now); up = 0; down = places + length fraction.now })) }
{
    let left = (front.len() as u64).saturating_sub(places);
    let (kept, rest) = front.split_at(left as usize);
    if read_digits(0, rest) != 0 {
        return None;
    }
    if read_digits(0, fraction) != 0 {
        return None;
    }
    Some(read_digits(0, kept))
}

/// The number of digits whose point moves by an exponent, where it is whole.
fn moved(front: &[u8], fraction: &[u8], exponent: i64) -> Option<u64>
    requires front { AreDigits front.now }
    requires fraction { AreDigits fraction.now }
    ensures { result ≡ option_map capped (whole_number (record { digits = value_behind 10 0 (front.now ++ fraction.now); up = places_up exponent; down = places_down exponent + length fraction.now })) }
{
    let places = exponent.unsigned_abs();
    if exponent < 0 {
        return moved_left(front, fraction, places);
    }
    moved_right(front, fraction, places)
}

/// The number of a double without its sign, up to the cap, where it is whole; want of memory where its exponent doesn't have 64 bits,
/// which no token's is.
pub(crate) fn whole_size(text: &[u8]) -> Result<Option<u64>, AllocError>
    ensures { IfOk result (λ size. size ≡ option_map capped (whole_number (decimal_in text.now))) }
{
    let (front, behind) = front_digits(text);
    let fraction = fraction_digits(behind);
    let exponent = exponent_of(behind_exponent_mark(text))?;
    Ok(moved(front, fraction, exponent))
}
