//! Reads the lines of entries from the front: what was read and what is left behind it, or how many bytes are left at the fault.

ghost use Rattle.std.specs.Prelude.{◌≡◌, ◌≤◌, ◌-◌, ◌^◌, length, Ok, IfOk};
ghost use Rattle.std.specs.List.{prefix_len};
ghost use Rattle.thrift_value.specs.TreeOf.{tree_of};
ghost use Rattle.value_text.specs.Answering.{Gives, Answers};
ghost use Rattle.value_text.specs.Reading.{most_rounds};
ghost use Rattle.call_rules.specs.Answers.{plain_answer};
ghost use Rattle.call_rules.specs.Entries.{CallEntry};
ghost use Rattle.call_rules.specs.PlainCalls.{is_method_byte};
ghost use Rattle.journal_text.specs.LineOf.{IsLineOf};
ghost use Rattle.journal_text.specs.EntryReading.{answer_front, arguments_front, call_front, call_read, entry_front, entry_read, key_front, line_front, method_cut, method_front, natural_front, number_front, success_front, thrown_front, word_answer, word_front};

use call_rules::{Answer, Call, Entry, Key};
use std::alloc::Global;
use thrift_value::{ByteText, Tag, Value};
use value_text::{TextFault, TextStop, integer_at, past, positive_at, value_at};

/// The entry whose line this is, its newline included. A line that is none's is at fault at the first byte with which none goes on.
pub fn read_entry(alloc: Global, line: &[u8]) -> Result<Entry, TextFault>
    // Which entry or which fault it is; want of memory alone is free.
    ensures exact { Answers (λ entry. entry) result (entry_read line.now) }
    // What is read is this line.
    ensures found { IfOk result (λ entry. IsLineOf line.now entry) }
    // The line of an entry is read as that entry.
    ensures only { (e : CallEntry) → IsLineOf line.now e → Answers (λ entry. entry) result (Ok e) }
{
    entry_in(alloc, line)
}

/// Does the same; its contract speaks of reading alone.
fn entry_in(alloc: Global, line: &[u8]) -> Result<Entry, TextFault>
    ensures { Answers (λ entry. entry) result (entry_read line.now) }
{
    match line_front(alloc, line) {
        Ok(entry) => Ok(entry),
        Err(TextStop::Left(left)) => Err(TextFault::At(line.len().saturating_sub(left))),
        Err(TextStop::NoMemory) => Err(TextFault::NoMemory),
    }
}

/// An entry and its newline, with nothing behind it.
#[tactic(auto, unfolding(crate::specs::EntryReading::line_front))]
fn line_front(alloc: Global, text: &[u8]) -> Result<Entry, TextStop>
    ensures { Gives (λ entry. entry) result (line_front most_rounds text.now) }
{
    let (entry, behind) = entry_front(alloc, text)?;
    let rest = past(b"\n", behind)?;
    if !rest.is_empty() {
        return Err(TextStop::Left(rest.len()));
    }
    Ok(entry)
}

/// An entry.
#[tactic(auto, unfolding(crate::specs::EntryReading::entry_front))]
fn entry_front(alloc: Global, text: &[u8]) -> Result<(Entry, &[u8]), TextStop>
    ensures { Gives (λ r. (r.0, r.1.now)) result (entry_front most_rounds text.now) }
{
    let (key, call, behind) = call_front(alloc, text)?;
    let rest = past(b" ", behind)?;
    let (answer, rest) = answer_front(alloc, rest)?;
    Ok((Entry { key, call, answer }, rest))
}

/// A call under its key.
#[tactic(auto, unfolding(crate::specs::EntryReading::call_front))]
fn call_front(alloc: Global, text: &[u8]) -> Result<(Key, Call, &[u8]), TextStop>
    ensures { Gives (λ r. (call_read r.0 r.1, r.2.now)) result (call_front most_rounds text.now) }
{
    let (silent, rest) = word_front(text)?;
    let (key, rest) = key_front(rest)?;
    let (slot, rest) = narrow_front(rest)?;
    let (method, rest) = method_front(alloc, rest)?;
    let (args, rest) = arguments_front(alloc, rest)?;
    let call = Call {
        slot,
        method,
        args,
        silent,
    };
    Ok((key, call, rest))
}

/// The first word: whether the call gets no reply.
#[tactic(auto, unfolding(crate::specs::EntryReading::word_front))]
fn word_front(text: &[u8]) -> Result<(bool, &[u8]), TextStop>
    ensures { Gives (λ r. (r.0, r.1.now)) result (word_front text.now) }
{
    let [byte, ..] = text else {
        return Err(TextStop::Left(0));
    };
    if *byte == b'o' {
        let rest = past(b"oneway", text)?;
        return Ok((true, rest));
    }
    let rest = past(b"call", text)?;
    Ok((false, rest))
}

/// The connection and the number of its frame.
#[tactic(auto, unfolding(crate::specs::EntryReading::key_front))]
fn key_front(text: &[u8]) -> Result<(Key, &[u8]), TextStop>
    ensures { Gives (λ r. (r.0, r.1.now)) result (key_front text.now) }
{
    let (c, rest) = narrow_front(text)?;
    let (i, rest) = number_front(u64::MAX, rest)?;
    Ok((Key { c, i }, rest))
}

/// A blank and a number of 32 bits.
fn narrow_front(text: &[u8]) -> Result<(u32, &[u8]), TextStop>
    ensures { Gives (λ r. (r.0, r.1.now)) result (number_front (2 ^ 32 - 1) text.now) }
{
    let (n, rest) = number_front(0xffff_ffff, text)?;
    Ok((n as u32, rest))
}

/// A blank and a number up to `most`.
#[tactic(auto, unfolding(crate::specs::EntryReading::number_front))]
fn number_front(most: u64, text: &[u8]) -> Result<(u64, &[u8]), TextStop>
    requires { 9 ≤ most }
    ensures exact { Gives (λ r. (r.0, r.1.now)) result (number_front most text.now) }
    ensures bound { IfOk result (λ r. r.0 ≤ most) }
{
    let rest = past(b" ", text)?;
    natural_front(most, rest)
}

/// A number up to `most`, with no zero in front.
#[tactic(auto, unfolding(crate::specs::EntryReading::natural_front))]
fn natural_front(most: u64, text: &[u8]) -> Result<(u64, &[u8]), TextStop>
    requires { 9 ≤ most }
    ensures exact { Gives (λ r. (r.0, r.1.now)) result (natural_front most text.now) }
    ensures bound { IfOk result (λ r. r.0 ≤ most) }
{
    let [byte, rest @ ..] = text else {
        return Err(TextStop::Left(0));
    };
    if *byte == b'0' {
        return Ok((0, rest));
    }
    positive_at(most, text)
}

/// Whether a byte may stand in a method.
fn is_method_byte(byte: u8) -> bool
    ensures { result ≡ is_method_byte byte }
{
    match byte {
        b'0'..=b'9' => true,
        b'A'..=b'Z' => true,
        b'a'..=b'z' => true,
        _ => byte == b'_',
    }
}

/// How many bytes in front may stand in a method.
fn method_length(text: &[u8]) -> usize
    ensures exact { result ≡ prefix_len is_method_byte text.now }
    ensures bound { result ≤ length text.now }
{
    text.iter()
        .take_while(|byte| is_method_byte(**byte))
        .count()
}

/// A method, as far as its bytes go.
fn method_cut(alloc: Global, text: &[u8]) -> Result<(ByteText, &[u8]), TextStop>
    ensures { Gives (λ r. (r.0, r.1.now)) result (method_cut (prefix_len is_method_byte text.now) text.now) }
{
    let size = method_length(text);
    if size == 0 {
        return Err(TextStop::Left(text.len()));
    }
    let (method, behind) = text.split_at(size);
    let bytes = method.to_vec(alloc)?;
    Ok((ByteText::new(bytes), behind))
}

/// A blank and a method.
#[tactic(auto, unfolding(crate::specs::EntryReading::method_front))]
fn method_front(alloc: Global, text: &[u8]) -> Result<(ByteText, &[u8]), TextStop>
    ensures { Gives (λ r. (r.0, r.1.now)) result (method_front text.now) }
{
    let rest = past(b" ", text)?;
    method_cut(alloc, rest)
}

/// A blank and the arguments.
#[tactic(auto, unfolding(crate::specs::EntryReading::arguments_front))]
fn arguments_front(alloc: Global, text: &[u8]) -> Result<(Value, &[u8]), TextStop>
    ensures { Gives (λ r. (tree_of r.0, r.1.now)) result (arguments_front most_rounds text.now) }
{
    let rest = past(b" ", text)?;
    value_at(alloc, 64, Some(Tag::Struct), rest)
}

/// An answer.
#[tactic(auto, unfolding(crate::specs::EntryReading::answer_front))]
fn answer_front(alloc: Global, text: &[u8]) -> Result<(Answer, &[u8]), TextStop>
    ensures { Gives (λ r. (plain_answer r.0, r.1.now)) result (answer_front most_rounds text.now) }
{
    let [byte, ..] = text else {
        return Err(TextStop::Left(0));
    };
    match *byte {
        b'o' => success_front(alloc, text),
        b'e' => word_answer(b"empty", Answer::Empty, text),
        b't' => thrown_front(alloc, text),
        _ => word_answer(b"broken", Answer::Broken, text),
    }
}

/// An answer that is a word.
#[tactic(auto, unfolding(crate::specs::EntryReading::word_answer))]
fn word_answer<'a>(
    word: &[u8],
    answer: Answer,
    text: &'a [u8],
) -> Result<(Answer, &'a [u8]), TextStop>
    ensures { Gives (λ r. (plain_answer r.0, r.1.now)) result (word_answer word.now (plain_answer answer) text.now) }
{
    let rest = past(word, text)?;
    Ok((answer, rest))
}

/// A value that is answered.
#[tactic(auto, unfolding(crate::specs::EntryReading::success_front))]
fn success_front(alloc: Global, text: &[u8]) -> Result<(Answer, &[u8]), TextStop>
    ensures { Gives (λ r. (plain_answer r.0, r.1.now)) result (success_front most_rounds text.now) }
{
    let rest = past(b"ok ", text)?;
    let (value, rest) = value_at(alloc, 64, None, rest)?;
    Ok((Answer::Success(value), rest))
}

/// An exception and its id.
#[tactic(auto, unfolding(crate::specs::EntryReading::thrown_front))]
fn thrown_front(alloc: Global, text: &[u8]) -> Result<(Answer, &[u8]), TextStop>
    ensures { Gives (λ r. (plain_answer r.0, r.1.now)) result (thrown_front most_rounds text.now) }
{
    let rest = past(b"throws ", text)?;
    let (id, rest) = integer_at(32767, rest)?;
    let rest = past(b" ", rest)?;
    let (exception, rest) = value_at(alloc, 64, None, rest)?;
    Ok((Answer::Throws(id as i16, exception), rest))
}
