//! Runs of bytes of one kind. One walk serves all kinds, so that one closure is proved and not one for each.
ghost use Rattle.std.specs.Prelude.{◌≡◌, ◌≤◌, length};
ghost use Rattle.std.specs.List.{prefix_len};
ghost use Rattle.idl_token.specs.Runs.{takes};

use crate::classes::{is_exponent_mark, is_word_byte};

/// The bytes that a run is made of.
#[derive(Clone, Copy)]
pub(crate) enum ByteRun {
    /// Digits.
    Digits,
    /// Hexadecimal digits of either case.
    HexDigits,
    /// Bytes that may stand in a word.
    WordBytes,
    /// What stands in a line.
    Line,
    /// What stands before the mark of an exponent.
    Mantissa,
}

fn takes(run: ByteRun, byte: u8) -> bool
    ensures { result ≡ takes run byte }
{
    match run {
        ByteRun::Digits => byte.is_ascii_digit(),
        ByteRun::HexDigits => byte.is_ascii_hexdigit(),
        ByteRun::WordBytes => is_word_byte(byte),
        ByteRun::Line => byte != b'\n',
        ByteRun::Mantissa => !is_exponent_mark(byte),
    }
}

/// How many bytes in front are of a run.
pub(crate) fn run_len(run: ByteRun, text: &[u8]) -> usize
    ensures value { result ≡ prefix_len (takes run) text.now }
    ensures within { result ≤ length text.now }
{
    text.iter().take_while(|byte| takes(run, **byte)).count()
}
