//! Kinds of bytes.
ghost use Rattle.std.specs.Prelude.{◌≡◌, slice_index};
ghost use Rattle.idl_token.specs.Classes.{is_white, is_word_start, is_word_byte, is_quote, is_plus_or_minus, is_exponent_mark, is_escape};

/// White space.
pub(crate) fn is_white(byte: u8) -> bool
    ensures { result ≡ is_white byte }
{
    byte == b' ' || byte == b'\t' || byte == b'\r' || byte == b'\n'
}

/// A byte that begins a word.
pub fn is_word_start(byte: u8) -> bool
    ensures { result ≡ is_word_start byte }
{
    byte.is_ascii_alphabetic() || byte == b'_'
}

/// A byte that may stand in a word.
pub(crate) fn is_word_byte(byte: u8) -> bool
    ensures { result ≡ is_word_byte byte }
{
    is_word_start(byte) || byte.is_ascii_digit() || byte == b'.'
}

/// A quotation mark.
pub fn is_quote(byte: u8) -> bool
    ensures { result ≡ is_quote byte }
{
    byte == b'"' || byte == b'\''
}

/// A sign of a number.
pub(crate) fn is_plus_or_minus(byte: u8) -> bool
    ensures { result ≡ is_plus_or_minus byte }
{
    byte == b'+' || byte == b'-'
}

/// A byte that begins an exponent.
pub fn is_exponent_mark(byte: u8) -> bool
    ensures { result ≡ is_exponent_mark byte }
{
    byte == b'e' || byte == b'E'
}

/// A byte that makes an escape with the backslash in front of it.
pub fn is_escape(byte: u8) -> bool
    ensures { result ≡ is_escape byte }
{
    byte == b'n' || byte == b't' || byte == b'r' || is_quote(byte) || byte == b'\\'
}

/// A byte of a text, or 0 behind its end.
pub fn byte_at(text: &[u8], at: usize) -> u8
    ensures { result ≡ slice_index text.now at }
{
    match text.get(at) {
        Some(byte) => *byte,
        None => 0,
    }
}
