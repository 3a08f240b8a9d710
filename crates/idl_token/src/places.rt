//! Places in a text.
ghost use Rattle.std.specs.Prelude.{◌≡◌, ◌≤◌, ◌==◌, not, length, count_by};
ghost use Rattle.std.specs.List.{suffix_len};
ghost use Rattle.idl_token.specs.Bytes as byte;
ghost use Rattle.idl_token.specs.Places.{line_and_column};

use crate::{LONGEST_IDL_TEXT, Place};

/// The line and column of a byte of a text, or of its end.
pub fn place_at(text: &[u8], at: usize) -> Place
    requires within { at ≤ length text.now }
    requires short { length text.now ≤ LONGEST_IDL_TEXT }
    ensures { result ≡ line_and_column text.now at }
{
    let (before, _) = text.split_at(at);
    Place {
        line: 1 + newlines_in(before) as u32,
        column: 1 + bytes_behind_newline(before) as u32,
    }
}

fn newlines_in(text: &[u8]) -> usize
    ensures value { result ≡ count_by (λ b. b == byte.newline) text.now }
    ensures within { result ≤ length text.now }
{
    text.iter().filter(|byte| **byte == b'\n').count()
}

fn bytes_behind_newline(text: &[u8]) -> usize
    ensures value { result ≡ suffix_len (λ b. not (b == byte.newline)) text.now }
    ensures within { result ≤ length text.now }
{
    text.iter().rev().take_while(|byte| **byte != b'\n').count()
}
