//! Pairs of hexadecimal digits, read.

ghost use Rattle.std.specs.Prelude.{◌≡◌, ◌*◌, ◌≤◌, length, IfOk};
ghost use Rattle.std.specs.Option.{option_map};
ghost use Rattle.hex.specs.Hex.{hex_digit_value};
ghost use Rattle.text_out.specs.Hex.{unhex_of};
ghost use Rattle.script_text.specs.Pairs.{digit_worth, IsDigitWorth, where_all};

use std::alloc::{AllocError, Global};

/// What no digit is worth.
const NO_DIGIT: u8 = 16;

/// The bytes that pairs of hexadecimal digits of either case spell, or nothing where the text isn't such pairs.
pub(crate) fn bytes_of_pairs(alloc: Global, text: &[u8]) -> Result<Option<Vec<u8>>, AllocError>
    ensures { IfOk result (λ read. option_map (λ bytes. bytes.items) read ≡ unhex_of text.now) }
{
    if text.len() % 2 != 0 {
        return Ok(None);
    }
    let mut bytes = vec![in alloc; 0u8; text.len() / 2]?;
    if !put_pairs(bytes.as_mut_slice(), text) {
        return Ok(None);
    }
    Ok(Some(bytes))
}

/// Puts the byte of each pair in its place, and tells whether all were digits. It doesn't stop at one that is none, so the compiler
/// makes it read many pairs at once.
fn put_pairs(room: &mut [u8], text: &[u8]) -> bool
    requires { length text.now ≡ 2 * length room.old }
    ensures { where_all result room.new ≡ unhex_of text.now }
{
    let mut most = 0;
    'pairs: for i in 0..room.len() {
        let high = worth(text[2 * i]);
        let low = worth(text[2 * i + 1]);
        room[i] = high % 16 * 16 + low % 16;
        most = most.max(high.max(low));
    }
    most < NO_DIGIT
}

/// What a digit of either case is worth.
#[inline(always)]
fn worth(digit: u8) -> u8
    ensures value { result ≡ digit_worth (hex_digit_value digit) }
    ensures small { IsDigitWorth (hex_digit_value digit) }
{
    match digit {
        b'A'..=b'F' => digit - 55,
        b'a'..=b'f' => digit - 87,
        b'0'..=b'9' => digit - 48,
        _ => NO_DIGIT,
    }
}
