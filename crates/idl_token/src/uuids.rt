//! The numbers of uuids that literals write.
ghost use Rattle.std.specs.Prelude.{◌≡◌, ◌≤◌, ◌+◌, length};
ghost use Rattle.idl_token.specs.Uuids.{is_dash_place, uuid_behind, uuid_number, uuid_step, with_digit};

use crate::numbers::digit_value;

/// How many bytes a uuid has as a literal.
const UUID_LENGTH: usize = 36;

/// Whether a `-` has to stand at a place.
fn is_dash_place(place: usize) -> bool
    ensures { result ≡ is_dash_place place }
{
    place == 8 || place == 13 || place == 18 || place == 23
}

/// A number with a digit behind it.
fn with_digit(number: u128, byte: u8) -> u128
    ensures { result ≡ with_digit number byte }
{
    number
        .wrapping_mul(16)
        .wrapping_add(u128::from(digit_value(byte)))
}

/// A number with the byte at a place behind it.
fn uuid_step(place: usize, number: u128, byte: u8) -> Option<u128>
    ensures { result ≡ uuid_step place number byte }
{
    if is_dash_place(place) {
        if byte == b'-' {
            return Some(number);
        }
        return None;
    }
    if byte.is_ascii_hexdigit() {
        return Some(with_digit(number, byte));
    }
    None
}

/// The number that the bytes from a place on make, behind those before. It recurses once a byte.
fn uuid_behind(place: usize, number: u128, text: &[u8]) -> Option<u128>
    requires { place + length text.now ≤ 36 }
    ensures { result ≡ uuid_behind place number text.now }
{
    let [byte, rest @ ..] = text else {
        return Some(number);
    };
    let Some(next) = uuid_step(place, number, *byte) else {
        return None;
    };
    uuid_behind(place + 1, next, rest)
}

/// The number of the uuid that a literal writes, or nothing of another text.
pub fn uuid_value(text: &[u8]) -> Option<u128>
    ensures { result ≡ uuid_number text.now }
{
    if text.len() != UUID_LENGTH {
        return None;
    }
    uuid_behind(0, 0, text)
}
