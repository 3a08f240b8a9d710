//! The lexer of the interface language: a text is cut into tokens by longest match, or its first fault
//! is found, with its kind, line and column.
//!
//! It is no parser: it knows no grammar, resolves no escapes and reads no doubles. `tokens` takes the text
//! and is the one call that finds faults; of a token `t` the bytes are `text[t.from..t.to]`, the number of
//! an integer is its `int_value`, and the line and column of any byte are its `place_at`.
//!
//! ```
//! for token in tokens(alloc, text)?.iter() {
//!     let (_, rest) = text.split_at(token.from as usize);
//!     let (bytes, _) = rest.split_at((token.to - token.from) as usize);
//!     match token.kind {
//!         TokenKind::Keyword => { .. keyword_of(bytes) .. }
//!         TokenKind::Int => { .. int_value(bytes) .. }      // but for `true` and `false`
//!         _ => { .. place_at(text, token.from as usize) .. }
//!     }
//! }
//! ```
//!
//! The laws say that a text has one list of tokens or one first fault, and which tokens a text has that
//! was put together of tokens and white space. `uuid_value` is the number of the uuid that a literal writes, for those who evaluate
//! constants, as are signs, exponents and bytes of numbers.
#![tactic(auto)]

ghost use Rattle.std.specs.Prelude.{◌≡◌, ◌≢◌, ◌≤◌, ◌↔◌, ◌⊎◌, ℕ, false, FitsSigned, List, length, IfOk, IfErr};
ghost use Rattle.std.specs.Int.{w64};
ghost use Rattle.std.specs.List.{All};
ghost use Rattle.idl_token.specs.Words.{is_truth_word};
ghost use Rattle.idl_token.specs.Numbers.{is_big_int, int_of};
ghost use Rattle.idl_token.specs.Wholes.{sound, whole_of};
ghost use Rattle.idl_token.specs.Tokens.{AreTokensOf, IsFirstLexFault, HasTokens, HasFirstLexFault, IsOfItsKind, StandBetween};

use crate::pieces::{Piece, next_piece};
use std::alloc::{AllocFailed, Global};
use std::fmt;
use thiserror::Error;

mod blanks;
mod classes;
mod laws;
mod literals;
mod numbers;
mod pieces;
mod places;
mod runs;
mod terminal;
mod uuids;
mod words;

pub use classes::{byte_at, is_exponent_mark};
pub use laws::{
    a_sign_spells_itself, a_text_has_the_tokens_that_it_spells, a_token_spells_itself,
    joined_texts_spell_the_tokens_of_both, white_space_spells_nothing,
};
pub use limits::LONGEST_IDL_TEXT;
pub use numbers::{int_value, is_big_int, sign_in};
pub use places::place_at;
pub use terminal::{Terminal, same};
pub use uuids::uuid_value;
pub use words::{keyword_of, keyword_text};

/// What a token is.
#[derive(Clone, Copy, PartialEq, Eq)]
pub enum TokenKind {
    /// A word with a meaning of its own.
    Keyword,
    /// Any other word that isn't refused.
    Identifier,
    /// An integer, or one of the words `true` and `false`, which stand for 1 and 0.
    Int,
    /// A number with a fraction or an exponent.
    Double,
    /// Bytes between quotation marks.
    Literal,
    /// A sign of the grammar.
    Sign,
    /// A word or sign that is left out by name.
    Refused,
}

/// A token of a text.
#[derive(Clone, Copy)]
pub struct Token {
    /// What it is.
    pub kind: TokenKind,
    /// The place of its first byte, from 0.
    pub from: u32,
    /// The place behind its last byte.
    pub to: u32,
}

/// A place in a text.
#[derive(Clone, Copy, Debug, PartialEq, Eq)]
pub struct Place {
    /// The line, from 1; only a newline ends one.
    pub line: u32,
    /// The column in bytes, from 1.
    pub column: u32,
}

impl fmt::Display for Place {
    fn fmt<W: fmt::Write>(&self, f: &mut fmt::Formatter<W>) -> fmt::Result {
        write!(f, "line {}, column {}", self.line, self.column)
    }
}

/// What is wrong in a text.
#[derive(Clone, Copy, Debug, PartialEq, Eq, Error)]
pub enum LexKind {
    /// A byte with which no token begins.
    #[error("no token begins with this byte")]
    BadByte,
    /// A literal without its closing quotation mark.
    #[error("the literal isn't closed")]
    OpenLiteral,
    /// A comment without its `*/`.
    #[error("the comment isn't closed")]
    OpenComment,
    /// A backslash in a literal with a byte behind it that makes no escape.
    #[error("the backslash makes no escape with the byte behind it")]
    BadEscape,
    /// An integer outside 64 bits, or a double with too many digits or too large an exponent.
    #[error("the number is too big")]
    BigNumber,
    /// The tokens found no room in memory.
    #[error("out of memory")]
    NoMemory,
}

/// The first fault of a text.
#[derive(Clone, Copy, Debug, Error)]
#[error("{at}: {kind}")]
pub struct LexFault {
    /// Where it stands: a literal, a comment or a number by its first byte.
    pub at: Place,
    /// What is wrong there.
    pub kind: LexKind,
}

impl From<AllocFailed<Token>> for LexFault {
    ghost use Rattle.idl_token.specs.declared.LexKind.TheVariants.{NoMemory};

    ghost from_gives = { λ _ fault. fault.kind ≡ NoMemory };

    fn from(_failed: AllocFailed<Token>) -> Self {
        LexFault {
            at: Place { line: 1, column: 1 },
            kind: LexKind::NoMemory,
        }
    }
}

/// The tokens of a text in order, or its first fault.
pub fn tokens(alloc: Global, text: &[u8]) -> Result<Vec<Token>, LexFault>
    requires { length text.now ≤ LONGEST_IDL_TEXT }
    ensures ok { IfOk result (λ tokens. AreTokensOf tokens.items text.now) }
    ensures fault { IfErr result (λ fault. fault.kind ≢ LexKind.NoMemory → IsFirstLexFault fault text.now) }
{
    let mut tokens = Vec::new(alloc);
    let mut at = 0;
    'pieces: while at < text.len() {
        let (_, rest) = text.split_at(at);
        match next_piece(rest) {
            Piece::Blank(size) => at += size,
            Piece::Token(kind, size) => {
                tokens.push(Token {
                    kind,
                    from: at as u32,
                    to: (at + size) as u32,
                })?;
                at += size;
            }
            Piece::Fault(kind, inside) => {
                return Err(LexFault {
                    at: place_at(text, at + inside),
                    kind,
                });
            }
        }
    }
    Ok(tokens)
}

/// Each text has tokens or a first fault.
pub fn tokens_or_a_first_fault()
    ensures { (text : List ℕ) → HasTokens text ⊎ HasFirstLexFault text }
{}

/// A first fault is one of the text, never want of memory.
pub fn a_first_fault_is_no_want_of_memory()
    ensures { (text : List ℕ) (fault : LexFault) → IsFirstLexFault fault text → fault.kind ≢ LexKind.NoMemory }
{}

/// A text has one list of tokens.
pub fn tokens_are_determined()
    ensures { (text : List ℕ) (ts us : List Token) → AreTokensOf ts text → AreTokensOf us text → ts ≡ us }
{}

/// A text with a list of tokens has no first fault.
pub fn tokens_exclude_a_fault()
    ensures { (text : List ℕ) (ts : List Token) (fault : LexFault) → AreTokensOf ts text → IsFirstLexFault fault text → ⊥ }
{}

/// A text has one first fault at most.
pub fn the_fault_is_determined()
    ensures { (text : List ℕ) (f g : LexFault) → IsFirstLexFault f text → IsFirstLexFault g text → f ≡ g }
{}

/// Tokens stand in order within the text, and each has a byte or more.
pub fn tokens_stand_in_order()
    ensures { (text : List ℕ) (ts : List Token) → AreTokensOf ts text → StandBetween 0 (length text) ts }
{}

/// The bytes of each token are, as a whole, a token of its kind.
pub fn each_token_is_of_its_kind()
    ensures { (text : List ℕ) (ts : List Token) → AreTokensOf ts text → All (IsOfItsKind text) ts }
{}

/// An integer is too big exactly where its number has no place in 64 bits.
pub fn big_integers_are_outside_64_bits()
    ensures { (int : List ℕ) → (is_big_int int ≡ false) ↔ FitsSigned w64 (int_of int) }
{}

/// A token that is an integer, and none of the words for truth, has a number with a place in 64 bits.
pub fn an_integer_has_a_place_in_64_bits()
    ensures { (token : List ℕ) → whole_of token ≡ sound TokenKind.Int → is_truth_word token ≡ false → FitsSigned w64 (int_of token) }
{}
