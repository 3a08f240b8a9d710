//! Words: identifiers, keywords, the words for truth and the refused words.
ghost use Rattle.std.specs.Prelude.{◌≡◌, ◌≤◌, length};
ghost use Rattle.std.specs.List.{prefix_len};
ghost use Rattle.idl_token.specs.Classes.{is_word_byte};
ghost use Rattle.idl_token.specs.Words.{terminal_in, text_in, keyword_of, is_keyword, keyword_text, is_truth_word, is_refused, kind_of_word};
ghost use Rattle.idl_token.specs.Lengths.{word_len};

use crate::TokenKind;
use crate::classes::{byte_at, is_word_start};
use crate::runs::{ByteRun, run_len};
use crate::terminal::{Terminal, same};

/// The keywords with their terminals: the lexer, the parser and the printer look them up here.
const KEYWORDS: [(&str, Terminal); 30] = [
    ("namespace", Terminal::Namespace),
    ("include", Terminal::Include),
    ("cpp_include", Terminal::CppInclude),
    ("const", Terminal::Const),
    ("typedef", Terminal::Typedef),
    ("enum", Terminal::Enum),
    ("struct", Terminal::Struct),
    ("union", Terminal::Union),
    ("exception", Terminal::Exception),
    ("service", Terminal::Service),
    ("extends", Terminal::Extends),
    ("throws", Terminal::Throws),
    ("oneway", Terminal::Oneway),
    ("void", Terminal::Void),
    ("required", Terminal::Required),
    ("optional", Terminal::Optional),
    ("bool", Terminal::Bool),
    ("byte", Terminal::Byte),
    ("i8", Terminal::I8),
    ("i16", Terminal::I16),
    ("i32", Terminal::I32),
    ("i64", Terminal::I64),
    ("double", Terminal::DoubleWord),
    ("string", Terminal::StringWord),
    ("binary", Terminal::Binary),
    ("uuid", Terminal::Uuid),
    ("map", Terminal::Map),
    ("set", Terminal::Set),
    ("list", Terminal::List),
    ("cpp_type", Terminal::CppType),
];

/// The bytes of the longest word in front.
#[tactic(auto, unfolding(crate::specs::Lengths::word_len))]
pub(crate) fn word_len(text: &[u8]) -> usize
    ensures value { result ≡ word_len text.now }
    ensures within { result ≤ length text.now }
{
    if !is_word_start(byte_at(text, 0)) {
        return 0;
    }
    word_bytes_in(text)
}

fn word_bytes_in(text: &[u8]) -> usize
    ensures value { result ≡ prefix_len is_word_byte text.now }
    ensures within { result ≤ length text.now }
{
    run_len(ByteRun::WordBytes, text)
}

fn terminal_in(rows: &[(&str, Terminal)], text: &[u8]) -> Option<Terminal>
    ensures { result ≡ terminal_in (λ row. row.0.now) (λ row. row.1) rows.now text.now }
{
    for (word, terminal) in rows {
        if text == word.as_bytes() {
            return Some(*terminal);
        }
    }
    None
}

/// The terminal of a keyword, or nothing of another text.
#[tactic(auto, unfolding(crate::specs::Words::keywords))]
pub fn keyword_of(text: &[u8]) -> Option<Terminal>
    ensures { result ≡ keyword_of text.now }
{
    terminal_in(&KEYWORDS, text)
}

fn text_in<'a>(rows: &[(&'a str, Terminal)], terminal: Terminal) -> &'a str
    ensures { result.now ≡ text_in (λ row. row.0.now) (λ row. row.1) rows.now terminal }
{
    for (word, of) in rows {
        if same(*of, terminal) {
            return word;
        }
    }
    ""
}

/// The text of a keyword's terminal, and no text of another terminal.
#[tactic(auto, unfolding(crate::specs::Words::keywords))]
pub fn keyword_text(terminal: Terminal) -> &'static str
    ensures { result.now ≡ keyword_text terminal }
{
    text_in(&KEYWORDS, terminal)
}

fn is_keyword(text: &[u8]) -> bool
    ensures { result ≡ is_keyword text.now }
{
    keyword_of(text).is_some()
}

#[tactic(auto, unfolding(crate::specs::Words::truth_words))]
fn is_truth_word(text: &[u8]) -> bool
    ensures { result ≡ is_truth_word text.now }
{
    text == b"true".as_slice() || text == b"false".as_slice()
}

#[tactic(auto, unfolding(crate::specs::Words::refused_words, crate::specs::Words::refused_front))]
fn is_refused(text: &[u8]) -> bool
    ensures { result ≡ is_refused text.now }
{
    text == b"senum".as_slice() || text == b"slist".as_slice() || text.starts_with(b"xsd_")
}

/// What a word is.
#[tactic(auto, unfolding(crate::specs::Words::kind_of_word))]
pub fn kind_of_word(word: &[u8]) -> TokenKind
    ensures { result ≡ kind_of_word word.now }
{
    if is_keyword(word) {
        TokenKind::Keyword
    } else if is_truth_word(word) {
        TokenKind::Int
    } else if is_refused(word) {
        TokenKind::Refused
    } else {
        TokenKind::Identifier
    }
}
