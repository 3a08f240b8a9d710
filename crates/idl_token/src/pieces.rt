//! What stands at the front of a text: a blank, a token or a fault.
ghost use Rattle.std.specs.Prelude.{◌≡◌, ◌<◌, ◌≤◌, ◌==◌, length};
ghost use Rattle.std.specs.List.{list_any};
ghost use Rattle.idl_token.specs.Wholes.{signs, kind_of_sign};
ghost use Rattle.idl_token.specs.Pieces.{opening_fault, IsFrontPiece, IsWithin};
ghost use Rattle.idl_token.specs.Lengths.{token_len, sign_len, token_piece, front_piece};

use crate::blanks::{begins_comment, blank_in};
use crate::classes::{byte_at, is_quote};
use crate::literals::{bad_escape_in, literal_len};
use crate::numbers::{double_len, int_len, is_big_double, is_big_int};
use crate::words::{kind_of_word, word_len};
use crate::{LexKind, TokenKind};

/// What stands at the front of a text.
#[derive(Clone, Copy)]
pub enum Piece {
    /// White space or a comment of so many bytes.
    Blank(usize),
    /// A token of so many bytes.
    Token(TokenKind, usize),
    /// A fault, so many bytes behind the front.
    Fault(LexKind, usize),
}

/// The blank, the longest token or the fault at the front of a text.
#[tactic(auto, using(crate::proofs::PieceLemmas::piece_stands))]
pub(crate) fn next_piece(text: &[u8]) -> Piece
    ensures stands { IsFrontPiece text.now result }
    ensures within { IsWithin text.now result }
{
    piece_in(text)
}

#[tactic(auto, unfolding(crate::specs::Lengths::front_piece))]
fn piece_in(text: &[u8]) -> Piece
    ensures value { result ≡ front_piece text.now }
    ensures within { IsWithin text.now result }
{
    if let Some(size) = blank_in(text) {
        return Piece::Blank(size);
    }
    let size = token_len(text);
    if size == 0 {
        Piece::Fault(opening_fault(text), 0)
    } else {
        token_piece(text, size)
    }
}

#[tactic(auto, unfolding(crate::specs::Lengths::token_len))]
fn token_len(text: &[u8]) -> usize
    ensures value { result ≡ token_len text.now }
    ensures within { result ≤ length text.now }
{
    word_len(text)
        .max(int_len(text))
        .max(double_len(text))
        .max(literal_len(text))
        .max(sign_len(text))
}

#[tactic(auto, unfolding(crate::specs::Lengths::sign_len, crate::specs::Wholes::signs))]
fn sign_len(text: &[u8]) -> usize
    ensures value { result ≡ sign_len text.now }
    ensures within { result ≤ length text.now }
{
    if text.is_empty() || !is_sign(text[0]) {
        0
    } else {
        1
    }
}

/// A byte that is a sign of the grammar, or `&`.
#[tactic(auto, unfolding(crate::specs::Wholes::signs))]
pub fn is_sign(byte: u8) -> bool
    ensures { result ≡ list_any (λ sign. sign == byte) signs }
{
    b"{}()[]<>,;:=*&".contains(&byte)
}

/// What is wrong where no blank and no token begins.
pub fn opening_fault(text: &[u8]) -> LexKind
    ensures { result ≡ opening_fault text.now }
{
    if is_quote(byte_at(text, 0)) {
        LexKind::OpenLiteral
    } else if begins_comment(text) {
        LexKind::OpenComment
    } else {
        LexKind::BadByte
    }
}

/// The token of the first `size` bytes.
#[tactic(auto, unfolding(crate::specs::Lengths::token_piece))]
fn token_piece(text: &[u8], size: usize) -> Piece
    requires some { 0 < size }
    requires within { size ≤ length text.now }
    ensures value { result ≡ token_piece text.now size }
    ensures within { IsWithin text.now result }
{
    let (token, _) = text.split_at(size);
    if word_len(text) == size {
        Piece::Token(kind_of_word(token), size)
    } else if int_len(text) == size {
        if is_big_int(token) {
            return Piece::Fault(LexKind::BigNumber, 0);
        }
        Piece::Token(TokenKind::Int, size)
    } else if double_len(text) == size {
        if is_big_double(token) {
            return Piece::Fault(LexKind::BigNumber, 0);
        }
        Piece::Token(TokenKind::Double, size)
    } else if literal_len(text) == size {
        match bad_escape_in(token) {
            None => Piece::Token(TokenKind::Literal, size),
            Some(place) => Piece::Fault(LexKind::BadEscape, place),
        }
    } else {
        Piece::Token(kind_of_sign(text), size)
    }
}

/// Whether a sign is one of the grammar, or left out by name.
pub fn kind_of_sign(text: &[u8]) -> TokenKind
    ensures { result ≡ kind_of_sign text.now }
{
    if byte_at(text, 0) == b'&' {
        TokenKind::Refused
    } else {
        TokenKind::Sign
    }
}
