//! A token as the grammar sees it.
ghost use Rattle.std.specs.Prelude.{◌≡◌, ◌≤◌, ◌+◌, ◌-◌, ◌<◌, ◌^◌, length, map, take, drop, IfOk};
ghost use Rattle.idl_token.specs.Tokens.{StandBetween};
ghost use Rattle.idl_parser.specs.Symbols.{sign_of, terminal_of, lexemes, lexeme_at};
ghost use Rattle.idl_parser.specs.ReaderCalls.{lexeme_of, start, place_behind, place_behind_byte};

use crate::reader::part;
use idl_token::{LONGEST_IDL_TEXT, Place, Terminal, Token, TokenKind, byte_at, keyword_of};
use std::alloc::{AllocError, Global};

/// A token of a text, as the grammar sees it.
#[derive(Clone, Copy)]
pub struct Symbol {
    /// What it is to the grammar.
    pub what: Terminal,
    /// The place of its first byte, from 0.
    pub from: u32,
    /// The place behind its last byte.
    pub to: u32,
    /// Its line and column.
    pub place: Place,
}

#[tactic(auto, unfolding(crate::specs::Symbols::sign_of))]
fn sign_of(byte: u8) -> Terminal
    ensures { result ≡ sign_of byte }
{
    match byte {
        b'{' => Terminal::OpenBrace,
        b'}' => Terminal::CloseBrace,
        b'(' => Terminal::OpenParen,
        b')' => Terminal::CloseParen,
        b'[' => Terminal::OpenBracket,
        b']' => Terminal::CloseBracket,
        b'<' => Terminal::Less,
        b'>' => Terminal::Greater,
        b',' => Terminal::Comma,
        b';' => Terminal::Semicolon,
        b':' => Terminal::Colon,
        b'=' => Terminal::Equals,
        b'*' => Terminal::Star,
        _ => Terminal::Refused,
    }
}

fn terminal_of(kind: TokenKind, text: &[u8]) -> Terminal
    ensures { result ≡ terminal_of kind text.now }
{
    match kind {
        TokenKind::Keyword => keyword_of(text).unwrap_or(Terminal::Refused),
        TokenKind::Identifier => Terminal::Identifier,
        TokenKind::Int => Terminal::Int,
        TokenKind::Double => Terminal::Double,
        TokenKind::Literal => Terminal::Literal,
        TokenKind::Sign => sign_of(byte_at(text, 0)),
        TokenKind::Refused => Terminal::Refused,
    }
}

fn place_behind_byte(at: Place, byte: u8) -> Place
    requires line { at.line + 1 < 2 ^ 32 }
    requires column { at.column + 1 < 2 ^ 32 }
    ensures is { result ≡ place_behind_byte at byte }
    ensures line { result.line ≤ at.line + 1 }
    ensures column { result.column ≤ at.column + 1 }
{
    if byte == b'\n' {
        Place {
            line: at.line + 1,
            column: 1,
        }
    } else {
        Place {
            line: at.line,
            column: at.column + 1,
        }
    }
}

/// The place behind some bytes.
pub(crate) fn place_behind(at: Place, bytes: &[u8]) -> Place
    requires line { at.line + length bytes.now < 2 ^ 32 }
    requires column { at.column + length bytes.now < 2 ^ 32 }
    ensures is { result ≡ place_behind at bytes.now }
    ensures line { result.line ≤ at.line + length bytes.now }
    ensures column { result.column ≤ at.column + length bytes.now }
{
    let mut place = at;
    for byte in bytes {
        place = place_behind_byte(place, *byte);
    }
    place
}

/// The symbol of a token, from a place in front of it.
#[tactic(auto, using(crate::proofs::Places::behind_more))]
fn placed(text: &[u8], token: Token, at: usize, place: Place) -> Symbol
    requires before { at ≤ token.from }
    requires short { token.from ≤ LONGEST_IDL_TEXT }
    requires line { place.line ≤ 1 + at }
    requires column { place.column ≤ 1 + at }
    requires place { place ≡ place_behind start (take at text.now) }
    ensures is { lexeme_of text.now result ≡ lexeme_at text.now token }
    ensures from { result.from ≡ token.from }
    ensures line { result.place.line ≤ 1 + token.from }
    ensures column { result.place.column ≤ 1 + token.from }
    ensures place { result.place ≡ place_behind start (take token.from text.now) }
{
    let place = place_behind(place, part(text, at, token.from as usize));
    let bytes = part(text, token.from as usize, token.to as usize);
    Symbol {
        what: terminal_of(token.kind, bytes),
        from: token.from,
        to: token.to,
        place,
    }
}

/// The symbols of a text, in one walk over it.
pub fn symbols(alloc: Global, text: &[u8], tokens: &[Token]) -> Result<Vec<Symbol>, AllocError>
    requires short { length text.now ≤ LONGEST_IDL_TEXT }
    requires order { StandBetween 0 (length text.now) tokens.now }
    ensures { IfOk result (λ v. map (lexeme_of text.now) v.items ≡ lexemes text.now tokens.now) }
{
    let mut all = Vec::new(alloc);
    let mut at = 0;
    let mut place = Place { line: 1, column: 1 };
    'tokens: for token in tokens {
        let symbol = placed(text, *token, at, place);
        at = symbol.from as usize;
        place = symbol.place;
        all.push(symbol)?;
    }
    Ok(all)
}
