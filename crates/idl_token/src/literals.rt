//! Literals.
ghost use Rattle.std.specs.Prelude.{◌≡◌, ◌≤◌, ◌+◌, ◌==◌, ◌&&◌, not, false, length, IfSome};
ghost use Rattle.idl_token.specs.Bytes as code;
ghost use Rattle.idl_token.specs.Classes.{is_escape};
ghost use Rattle.idl_token.specs.Lengths.{literal_len, closed_from, bad_escape_from};

use crate::classes::{byte_at, is_escape, is_quote};

/// The bytes of the literal in front, from mark to mark.
#[tactic(auto, unfolding(crate::specs::Lengths::literal_len))]
pub(crate) fn literal_len(text: &[u8]) -> usize
    ensures value { result ≡ literal_len text.now }
    ensures within { result ≤ length text.now }
{
    let quote = byte_at(text, 0);
    if !is_quote(quote) {
        return 0;
    }
    let (_, inside) = text.split_at(1);
    closed_len(inside, quote)
}

/// The bytes of a literal whose mark stands in front of these, or 0 where none of these closes it.
fn closed_len(inside: &[u8], quote: u8) -> usize
    ensures value { result ≡ closed_from 1 quote false inside.now }
    ensures within { result ≤ 1 + length inside.now }
{
    let mut taken = false;
    for (i, byte) in inside.iter().enumerate() {
        if closes(taken, *byte, quote) {
            return i + 2;
        }
        taken = takes_next(taken, *byte);
    }
    0
}

/// The place of the first backslash in a literal whose byte behind makes no escape.
pub(crate) fn bad_escape_in(literal: &[u8]) -> Option<usize>
    ensures value { result ≡ bad_escape_from 0 false literal.now }
    ensures within { IfSome result (λ place. place ≤ length literal.now) }
{
    let mut taken = false;
    for (i, byte) in literal.iter().enumerate() {
        if is_bad_escape(taken, *byte) {
            return Some(i.saturating_sub(1));
        }
        taken = takes_next(taken, *byte);
    }
    None
}

fn closes(taken: bool, byte: u8, quote: u8) -> bool
    ensures { result ≡ (not taken && byte == quote) }
{
    !taken && byte == quote
}

fn is_bad_escape(taken: bool, byte: u8) -> bool
    ensures { result ≡ (taken && not (is_escape byte)) }
{
    taken && !is_escape(byte)
}

/// Whether a byte is a backslash that takes the byte behind it.
fn takes_next(taken: bool, byte: u8) -> bool
    ensures { result ≡ (not taken && byte == code.backslash) }
{
    !taken && byte == b'\\'
}
