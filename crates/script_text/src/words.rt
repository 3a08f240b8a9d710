//! What one line says.

ghost use Rattle.std.specs.Prelude.{◌≡◌, ◌<◌, ◌≤◌, ◌+◌, ◌∷◌, ◌^◌, ℕ, length, slice_index, position, IfOk, MatchOption, Some, None, Option, option_map, option_and_then};
ghost use Rattle.script_text.specs.TextLines.{is_space, is_line_end, parts_around, some_parts, text_lines, is_passed_over};
ghost use Rattle.script_text.specs.LineForms.{decimal_read, spelled_bytes, takes_some, word_alone, word_of_number, word_with_more, said_of, piece_on};
ghost use Rattle.script_text.specs.Drafts.{plain_said};

use crate::digits::bytes_of_pairs;
use crate::lines::{ScriptLine, WriteRule};
use memchr::memchr;
use std::alloc::{AllocError, Global};
use streams::Bytes;

/// What a line says: a line of the run, or one more rule of a connection.
#[derive(Drop)]
pub(crate) enum LineRead {
    /// A line that is no rule.
    Line(ScriptLine),
    /// A rule of the connection with this number.
    Rule(u32, WriteRule),
}

/// What a line says, or nothing where it has none of the forms.
pub(crate) fn read_said(alloc: Global, line: &[u8]) -> Result<Option<LineRead>, AllocError>
    ensures { IfOk result (λ said. option_map plain_said said ≡ said_of line.now) }
{
    let Some((word, rest)) = around_space(line) else {
        return Ok(alone(line));
    };
    let Some((number, last)) = around_space(rest) else {
        return Ok(numbered(word, rest));
    };
    with_more(alloc, word, number, last)
}

/// A line of one word.
fn alone(word: &[u8]) -> Option<LineRead>
    ensures { option_map plain_said result ≡ word_alone word.now }
{
    if word == b"open".as_slice() {
        return Some(LineRead::Line(ScriptLine::Opens));
    }
    if word == b"rest".as_slice() {
        return Some(LineRead::Line(ScriptLine::Rest));
    }
    if word == b"collect".as_slice() {
        return Some(LineRead::Line(ScriptLine::Collect));
    }
    None
}

/// A line of a word and a number.
fn numbered(word: &[u8], number: &[u8]) -> Option<LineRead>
    ensures { option_map plain_said result ≡ option_and_then (word_of_number word.now) (decimal_read number.now) }
{
    let number = read_number(number)?;
    word_and_number(word, number)
}

fn word_and_number(word: &[u8], n: u32) -> Option<LineRead>
    ensures { option_map plain_said result ≡ word_of_number word.now n }
{
    if word == b"end".as_slice() {
        return Some(LineRead::Line(ScriptLine::Ends(n)));
    }
    if word == b"readfail".as_slice() {
        return Some(LineRead::Line(ScriptLine::FailsRead(n)));
    }
    if word == b"block".as_slice() {
        return Some(LineRead::Rule(n, WriteRule::Block));
    }
    if word == b"writefail".as_slice() {
        return Some(LineRead::Rule(n, WriteRule::Fails));
    }
    if word == b"loop".as_slice() {
        return Some(LineRead::Line(ScriptLine::Loop(n)));
    }
    if word == b"work".as_slice() {
        return Some(LineRead::Line(ScriptLine::Work(n)));
    }
    None
}

/// A line of a word, a number and something more.
fn with_more(
    alloc: Global,
    word: &[u8],
    number: &[u8],
    last: &[u8],
) -> Result<Option<LineRead>, AllocError>
    ensures { IfOk result (λ said. option_map plain_said said ≡ option_and_then (word_with_more word.now last.now) (decimal_read number.now)) }
{
    let Some(c) = read_number(number) else {
        return Ok(None);
    };
    word_number_and_more(alloc, word, c, last)
}

fn word_number_and_more(
    alloc: Global,
    word: &[u8],
    c: u32,
    last: &[u8],
) -> Result<Option<LineRead>, AllocError>
    ensures { IfOk result (λ said. option_map plain_said said ≡ word_with_more word.now last.now c) }
{
    if word == b"data".as_slice() {
        return piece(alloc, c, last);
    }
    if word == b"write".as_slice() {
        return Ok(takes(c, last));
    }
    Ok(None)
}

/// The piece whose bytes are spelled so.
fn piece(alloc: Global, c: u32, digits: &[u8]) -> Result<Option<LineRead>, AllocError>
    ensures { IfOk result (λ said. option_map plain_said said ≡ option_map (piece_on c) (spelled_bytes digits.now)) }
{
    if digits.is_empty() {
        return Ok(None);
    }
    match bytes_of_pairs(alloc, digits)? {
        Some(bytes) => Ok(Some(LineRead::Line(ScriptLine::Piece(c, Bytes::new(bytes))))),
        None => Ok(None),
    }
}

/// The rule that a write takes at most so many bytes.
fn takes(c: u32, number: &[u8]) -> Option<LineRead>
    ensures { option_map plain_said result ≡ option_and_then (takes_some c) (decimal_read number.now) }
{
    let count = read_number(number)?;
    if count == 0 {
        return None;
    }
    Some(LineRead::Rule(c, WriteRule::Takes(count)))
}

/// The number of 32 bits that a text is the decimal of.
fn read_number(text: &[u8]) -> Option<u32>
    ensures { result ≡ decimal_read text.now }
{
    if text.is_empty() {
        return None;
    }
    let first = text[0];
    if first == b'+' {
        return None;
    }
    if first == b'0' {
        return zero_alone(text);
    }
    let Ok(text) = str::from_utf8(text) else {
        return None;
    };
    let Ok(number) = text.parse::<u32>() else {
        return None;
    };
    Some(number)
}

/// 0, where a text that begins with `0` is that alone.
fn zero_alone(text: &[u8]) -> Option<u32>
    requires { slice_index text.now 0 ≡ 48 }
    ensures { result ≡ decimal_read text.now }
{
    if text.len() == 1 {
        return Some(0);
    }
    None
}

/// The parts of a line around its first space.
fn around_space(line: &[u8]) -> Option<(&[u8], &[u8])>
    ensures { MatchOption result (parts_around is_space line.now ≡ None)
        (λ cut. parts_around is_space line.now ≡ some_parts cut.0.now cut.1.now) }
{
    match first_space(line) {
        None => None,
        Some(at) => {
            let (word, rest) = line.split_at(at);
            Some((word, rest.split_at(1).1))
        }
    }
}

/// Where the first space stands.
fn first_space(line: &[u8]) -> Option<usize>
    ensures { result ≡ position is_space line.now }
{
    line.iter().position(|byte| *byte == b' ')
}

/// Whether a line is empty or begins with `#`.
pub(crate) fn says_nothing(line: &[u8]) -> bool
    ensures { result ≡ is_passed_over line.now }
{
    match line.first() {
        None => true,
        Some(byte) => *byte == b'#',
    }
}

/// The first line and the text behind it.
pub(crate) fn cut_line(text: &[u8]) -> (&[u8], &[u8])
    requires { 0 < length text.now }
    ensures lines { text_lines text.now ≡ result.0.now ∷ text_lines result.1.now }
    ensures shorter { length result.1.now < length text.now }
{
    match newline(text) {
        None => text.split_at(text.len()),
        Some(at) => {
            let (line, rest) = text.split_at(at);
            let (_, rest) = rest.split_at(1);
            (line, rest)
        }
    }
}

/// Where the first newline stands.
fn newline(text: &[u8]) -> Option<usize>
    ensures { result ≡ position is_line_end text.now }
{
    memchr(b'\n', text)
}
