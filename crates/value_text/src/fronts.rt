//! Reads the parts of a text from the front: words, tags, decimals, hexadecimal digits and quoted bytes. Each reader answers what
//! it read and what is left behind it, or how many bytes are left at the fault.
ghost use Rattle.std.specs.Prelude.{◌≡◌, ◌≤◌, ◌<◌, ◌+◌, ◌^◌, ◌&&◌, ◌≤ℤ◌, neg_ℤ, pos, nat_le, MatchOption, None, Some, IfOk, IfSome};
ghost use Rattle.value_text.specs.Answering.{Gives};
ghost use Rattle.value_text.specs.Fronts.{digits_at, escaped_at, hex_at, hex_byte_at, hexed_at, integer_at, is_digit, is_printable, nibble, nibble_at, behind_word, positive_at, quoted_at, quoted_byte_at, tag_among, tag_at};
ghost use Rattle.value_text.specs.Reading.{most_rounds};
ghost use Rattle.value_text.specs.Rows.{next_at, rest_behind};

use crate::stop::TextStop;
use crate::words::word_of;
use std::alloc::Global;
use thrift_value::Tag;

/// What stands behind bytes that have to stand in front, or how many bytes are left at the first that is another. It recurses once a
/// byte of the word.
pub fn past<'a>(word: &[u8], text: &'a [u8]) -> Result<&'a [u8], TextStop>
    ensures { Gives (λ rest. rest.now) result (behind_word word.now text.now) }
{
    let [wanted, more @ ..] = word else {
        return Ok(text);
    };
    let [byte, rest @ ..] = text else {
        return Err(TextStop::Left(0));
    };
    if *byte != *wanted {
        return Err(TextStop::Left(text.len()));
    }
    past(more, rest)
}

/// What stands behind a byte, where it stands in front.
pub(crate) fn rest_behind(wanted: u8, text: &[u8]) -> Option<&[u8]>
    ensures { MatchOption result (rest_behind wanted text.now ≡ None) (λ rest. rest_behind wanted text.now ≡ Some rest.now) }
{
    let [byte, rest @ ..] = text else {
        return None;
    };
    if *byte == wanted {
        return Some(rest);
    }
    None
}

/// What stands behind a comma, so that more has to come, or behind the byte that closes.
pub(crate) fn next_at(close: u8, text: &[u8]) -> Result<(bool, &[u8]), TextStop>
    ensures { Gives (λ r. (r.0, r.1.now)) result (next_at close text.now) }
{
    if let Some(rest) = rest_behind(b',', text) {
        return Ok((true, rest));
    }
    if let Some(rest) = rest_behind(close, text) {
        return Ok((false, rest));
    }
    Err(TextStop::Left(text.len()))
}

/// The word of one of some tags. Where there is none, the fault is the furthest one.
fn tag_among<'a>(tags: &[Tag], furthest: usize, text: &'a [u8]) -> Result<(Tag, &'a [u8]), TextStop>
    ensures { Gives (λ r. (r.0, r.1.now)) result (tag_among tags.now furthest text.now) }
{
    let [tag, more @ ..] = tags else {
        return Err(TextStop::Left(furthest));
    };
    match past(word_of(*tag).as_bytes(), text) {
        Ok(rest) => Ok((*tag, rest)),
        Err(TextStop::Left(left)) => tag_among(more, left.min(furthest), text),
        Err(TextStop::NoMemory) => Err(TextStop::NoMemory),
    }
}

/// The word of a tag.
#[tactic(auto, unfolding(crate::specs::Fronts::tag_at))]
pub(crate) fn tag_at(text: &[u8]) -> Result<(Tag, &[u8]), TextStop>
    ensures { Gives (λ r. (r.0, r.1.now)) result (tag_at text.now) }
{
    let tags = [
        Tag::Bool,
        Tag::I8,
        Tag::I16,
        Tag::I32,
        Tag::I64,
        Tag::Double,
        Tag::Bytes,
        Tag::Struct,
        Tag::Map,
        Tag::Set,
        Tag::List,
        Tag::Uuid,
    ];
    tag_among(&tags, text.len(), text)
}

/// Whether a byte is a decimal digit.
pub(crate) fn is_digit(byte: u8) -> bool
    ensures { result ≡ is_digit byte }
{
    b'0' <= byte && byte <= b'9'
}

/// Whether a byte is a decimal digit from 1 on.
fn is_first_digit(byte: u8) -> bool
    ensures { result ≡ (nat_le 49 byte && nat_le byte 57) }
{
    b'1' <= byte && byte <= b'9'
}

/// The further digits of a number that is `n` so far, as long as it isn't above `most`. It recurses once a digit.
fn digits_at(most: u64, n: u64, text: &[u8]) -> Result<(u64, &[u8]), TextStop>
    requires { n ≤ most }
    ensures exact { Gives (λ r. (r.0, r.1.now)) result (digits_at most n text.now) }
    ensures bound { IfOk result (λ r. r.0 ≤ most) }
{
    let [byte, rest @ ..] = text else {
        return Ok((n, text));
    };
    if !is_digit(*byte) {
        return Ok((n, text));
    }
    let next = u128::from(n) * 10 + u128::from(*byte - b'0');
    if next > u128::from(most) {
        return Err(TextStop::Left(text.len()));
    }
    digits_at(most, next as u64, rest)
}

/// A number from 1 up to `most`, with no zero in front, and what is left behind its digits; or how many bytes are left at the fault.
pub fn positive_at(most: u64, text: &[u8]) -> Result<(u64, &[u8]), TextStop>
    requires { 9 ≤ most }
    ensures exact { Gives (λ r. (r.0, r.1.now)) result (positive_at most text.now) }
    ensures bound { IfOk result (λ r. r.0 ≤ most) }
{
    let [byte, rest @ ..] = text else {
        return Err(TextStop::Left(0));
    };
    if !is_first_digit(*byte) {
        return Err(TextStop::Left(text.len()));
    }
    digits_at(most, u64::from(*byte - b'0'), rest)
}

/// An integer up to `most`, or down to one below the negative of it, and what is left behind its digits; or how many bytes are left
/// at the fault.
#[tactic(auto, unfolding(crate::specs::Fronts::integer_at))]
pub fn integer_at(most: u64, text: &[u8]) -> Result<(i128, &[u8]), TextStop>
    requires some { 9 ≤ most }
    requires low { most < 2 ^ 63 }
    ensures exact { Gives (λ r. (r.0, r.1.now)) result (integer_at most text.now) }
    ensures least { IfOk result (λ r. neg_ℤ (pos (most + 1)) ≤ℤ r.0) }
    ensures greatest { IfOk result (λ r. r.0 ≤ℤ pos most) }
{
    let [byte, behind @ ..] = text else {
        return Err(TextStop::Left(0));
    };
    if *byte == b'0' {
        return Ok((0, behind));
    }
    if *byte == b'-' {
        let (size, rest) = positive_at(most + 1, behind)?;
        return Ok((-i128::from(size), rest));
    }
    let (size, rest) = positive_at(most, text)?;
    Ok((i128::from(size), rest))
}

/// The value of a hexadecimal digit in lower case.
fn nibble(byte: u8) -> Option<u8>
    ensures value { result ≡ nibble byte }
    ensures bound { IfSome result (λ n. n < 16) }
{
    if is_digit(byte) {
        return Some(byte - b'0');
    }
    if is_letter_digit(byte) {
        return Some(byte - 87);
    }
    None
}

/// Whether a byte is a hexadecimal digit from a to f.
fn is_letter_digit(byte: u8) -> bool
    ensures { result ≡ (nat_le 97 byte && nat_le byte 102) }
{
    b'a' <= byte && byte <= b'f'
}

/// A hexadecimal digit.
fn nibble_at(text: &[u8]) -> Result<(u8, &[u8]), TextStop>
    ensures exact { Gives (λ r. (r.0, r.1.now)) result (nibble_at text.now) }
    ensures bound { IfOk result (λ r. r.0 < 16) }
{
    let [byte, rest @ ..] = text else {
        return Err(TextStop::Left(0));
    };
    let Some(n) = nibble(*byte) else {
        return Err(TextStop::Left(text.len()));
    };
    Ok((n, rest))
}

/// A byte of two hexadecimal digits, the high half first.
#[tactic(auto, unfolding(crate::specs::Fronts::hex_byte_at))]
fn hex_byte_at(text: &[u8]) -> Result<(u8, &[u8]), TextStop>
    ensures { Gives (λ r. (r.0, r.1.now)) result (hex_byte_at text.now) }
{
    let (high, behind) = nibble_at(text)?;
    let (low, rest) = nibble_at(behind)?;
    Ok((high * 16 + low, rest))
}

/// So many bytes of two hexadecimal digits each.
pub(crate) fn hex_at<const N: usize>(text: &[u8]) -> Result<([u8; N], &[u8]), TextStop>
    ensures { Gives (λ r. (r.0, r.1.now)) result (hex_at N text.now) }
{
    let mut bytes = [0; N];
    let mut rest = text;
    for i in 0..N {
        let (byte, behind) = hex_byte_at(rest)?;
        bytes[i] = byte;
        rest = behind;
    }
    Ok((bytes, rest))
}

/// Whether a byte stands as it is between quotation marks.
fn is_printable(byte: u8) -> bool
    ensures { result ≡ is_printable byte }
{
    0x20 <= byte && byte <= 0x7e
}

/// Whether a number is from 2 to 6.
fn is_middle(n: u8) -> bool
    ensures { result ≡ (nat_le 2 n && nat_le n 6) }
{
    2 <= n && n <= 6
}

/// The two digits of a byte that doesn't stand as it is.
#[tactic(auto, unfolding(crate::specs::Fronts::hexed_at))]
fn hexed_at(text: &[u8]) -> Result<(Option<u8>, &[u8]), TextStop>
    ensures { Gives (λ r. (r.0, r.1.now)) result (hexed_at text.now) }
{
    let (high, behind) = nibble_at(text)?;
    if is_middle(high) {
        return Err(TextStop::Left(text.len()));
    }
    let (low, rest) = nibble_at(behind)?;
    let byte = high * 16 + low;
    if is_printable(byte) {
        return Err(TextStop::Left(behind.len()));
    }
    Ok((Some(byte), rest))
}

/// What stands behind an escape mark.
#[tactic(auto, unfolding(crate::specs::Fronts::escaped_at))]
fn escaped_at(text: &[u8]) -> Result<(Option<u8>, &[u8]), TextStop>
    ensures { Gives (λ r. (r.0, r.1.now)) result (escaped_at text.now) }
{
    let [byte, rest @ ..] = text else {
        return Err(TextStop::Left(0));
    };
    match *byte {
        b'"' => Ok((Some(b'"'), rest)),
        b'\\' => Ok((Some(b'\\'), rest)),
        b'x' => hexed_at(rest),
        _ => Err(TextStop::Left(text.len())),
    }
}

/// One byte behind a quotation mark, or the mark that ends them.
#[tactic(auto, unfolding(crate::specs::Fronts::quoted_byte_at))]
fn quoted_byte_at(text: &[u8]) -> Result<(Option<u8>, &[u8]), TextStop>
    ensures { Gives (λ r. (r.0, r.1.now)) result (quoted_byte_at text.now) }
{
    let [byte, rest @ ..] = text else {
        return Err(TextStop::Left(0));
    };
    if *byte == b'"' {
        return Ok((None, rest));
    }
    if *byte == b'\\' {
        return escaped_at(rest);
    }
    if is_printable(*byte) {
        return Ok((Some(*byte), rest));
    }
    Err(TextStop::Left(text.len()))
}

/// The bytes behind a quotation mark, up to the mark that ends them.
pub(crate) fn quoted_at(alloc: Global, text: &[u8]) -> Result<(Vec<u8>, &[u8]), TextStop>
    ensures { Gives (λ r. (r.0.items, r.1.now)) result (quoted_at most_rounds text.now) }
{
    let mut bytes = Vec::new(alloc);
    let mut rest = text;
    for step in 0..usize::MAX {
        let (found, behind) = quoted_byte_at(rest)?;
        match found {
            None => return Ok((bytes, behind)),
            Some(byte) => {
                bytes.push(byte)?;
                rest = behind;
            }
        }
    }
    Err(TextStop::NoMemory)
}
