//! The text of a number, and of a field that is one, put together from behind so that a sink takes it at once.
ghost use Rattle.std.specs.Prelude.{◌≡◌, ◌++◌, ◌+◌, ◌<◌, ◌≤◌, ◌∷◌, [], codes, drop, length};
ghost use Rattle.text_out.specs.Decimal.{decimal_of};
ghost use Rattle.value_text.specs.ValueText.{number_and_letter};

use itoa::write_digits;

/// How many bytes a number takes at most with the letter of its type: nineteen digits, a sign, and the letter.
pub(crate) const MOST_NUMBER: usize = 21;

/// How many bytes a mark, an id, a `=` and such a number take at most, with room for as many digits of the id.
pub(crate) const MOST_NUMBERED: usize = 43;

/// Puts a number and the letter of its type at the end of a room; answers where they begin.
#[inline(always)]
pub(crate) fn put_number(room: &mut [u8], number: i64, letter: u8) -> usize
    requires { 21 ≤ length room.old }
    ensures put { drop result room.new ≡ number_and_letter number (letter ∷ []) }
    ensures most { length room.old ≤ result + 21 }
    ensures bound { result ≤ length room.old }
{
    let end = put_byte(room, room.len(), letter);
    put_decimal(room, end, number)
}

/// Puts a mark, the id of a field with the `=` behind it, and a number with the letter of its type at the end of a room; answers where
/// they begin.
#[inline(always)]
pub(crate) fn put_numbered(room: &mut [u8], mark: u8, id: i16, number: i64, letter: u8) -> usize
    requires { 43 ≤ length room.old }
    ensures put { drop result room.new ≡ (mark ∷ number_and_letter id (codes "=")) ++ number_and_letter number (letter ∷ []) }
    ensures bound { result ≤ length room.old }
{
    let start = put_number(room, number, letter);
    let equal = put_byte(room, start, b'=');
    let first = put_decimal(room, equal, i64::from(id));
    put_byte(room, first, mark)
}

/// Puts a number in front of what ends the room.
#[inline(always)]
fn put_decimal(room: &mut [u8], end: usize, number: i64) -> usize
    requires { 20 ≤ end × end ≤ length room.old }
    ensures put { drop result room.new ≡ decimal_of number ++ drop end room.old }
    ensures most { end ≤ result + 20 }
    ensures bound { result ≤ end }
{
    let start = write_digits(number.unsigned_abs(), room, end);
    if number >= 0 {
        return start;
    }
    put_byte(room, start, b'-')
}

/// Puts a byte there.
#[inline(always)]
fn put_byte(room: &mut [u8], end: usize, byte: u8) -> usize
    requires { 0 < end × end ≤ length room.old }
    ensures put { drop result room.new ≡ byte ∷ drop end room.old }
    ensures place { result + 1 ≡ end }
{
    let at = end - 1;
    room[at] = byte;
    at
}
