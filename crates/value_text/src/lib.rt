//! Values as text: one line a value, from which it can be told.
//!
//! `print(alloc, &value)` gives the text, `put_value(&mut text, &value)` appends it to a longer one, and `spell(&value, &mut out)`
//! writes it into a sink, part by part, and takes no memory. A vector is such a sink as a `VecSink`, so that one speller writes all:
//!
//! ```
//! let text = print(alloc, &value)?;        // {1=5i,2="a",3=list<i8>[1b,-2b]}
//! spell(&value, &mut out)?;                // the same, or Failed where the sink failed
//! let again = read(alloc, b"{1=5i}")?;     // the value whose text this is, or the place of the first fault
//! let (value, behind) = read_front(alloc, b"ok 5i", 3)?;
//! ```
//!
//! A text with values in it, as a line of a journal, is written part by part with `spell_value`, and read so with `value_at`, `past`,
//! `positive_at` and `integer_at`.
//!
//! Integers have the letter of their type behind them (`b`, `s`, `i`, `l`), a double is `d` and its 64 bits in hexadecimal, a
//! uuid `u` and its 128 bits, bytes stand between quotation marks, and a container names its tags. Not here: names of an IDL, which a value doesn't have.
#![tactic(auto)]

ghost use Rattle.std.specs.Prelude.{◌≡◌, ◌≤◌, ◌+◌, ◌++◌, ℕ, List, length, drop, Ok, IfOk};
ghost use Rattle.thrift_value.specs.Measures.{depth_of};
ghost use Rattle.thrift_value.specs.Tidy.{IsTidy};
ghost use Rattle.thrift_value.specs.Tree.{Tree};
ghost use Rattle.thrift_value.specs.TreeOf.{tree_of};
ghost use Rattle.value_text.specs.Answering.{Answers};
ghost use Rattle.value_text.specs.Reading.{ended, front_at, read_as, reading_of};
ghost use Rattle.value_text.specs.Texts.{HasText, IsTextAt, IsTextOf};
ghost use Rattle.value_text.specs.ValueText.{tree_text};

use std::alloc::{AllocError, Global};
use thrift_value::Value;

mod fault;
mod form;
mod fronts;
mod heads;
mod leaves;
mod numbered;
mod printer;
mod reading;
mod rows;
mod spelling;
mod stop;
mod vec_sink;
mod words;

pub use fault::TextFault;
pub use fronts::{integer_at, past, positive_at};
pub use printer::put_value;
pub use reading::value_at;
pub use rows::worked_texts;
pub use spelling::{hand_over, spell, spell_value};
pub use stop::TextStop;
pub use vec_sink::VecSink;

/// The text of a value.
pub fn print(alloc: Global, value: &Value) -> Result<Vec<u8>, AllocError>
    requires tidy { IsTidy (tree_of value.now) }
    requires levels { depth_of (tree_of value.now) ≤ 64 }
    ensures { IfOk result (λ text. text.items ≡ tree_text (tree_of value.now)) }
{
    let mut text = Vec::new(alloc);
    put_value(&mut text, value)?;
    Ok(text)
}

/// The value whose text stands at `at`, and the place behind it; or the place of the fault. What follows doesn't matter, since a
/// text ends itself.
pub fn read_front(alloc: Global, text: &[u8], at: usize) -> Result<(Value, usize), TextFault>
    requires { at ≤ length text.now }
    // Which value or which fault it is; want of memory alone is free.
    ensures exact { Answers (λ x. (tree_of x.0, x.1)) result (front_at text.now at) }
    // What is read is the text that stands there.
    ensures found { IfOk result (λ x. IsTextAt text.now at (tree_of x.0) x.1) }
    ensures place { IfOk result (λ x. x.1 ≤ length text.now) }
    // A text that stands there is read, whatever follows.
    ensures only { (x : Tree) (more : List ℕ) → HasText x → drop at text.now ≡ tree_text x ++ more
        → Answers (λ y. (tree_of y.0, y.1)) result (read_as x (at + length (tree_text x))) }
{
    front_in(alloc, text, at)
}

/// Does the same; its contract speaks of reading alone.
fn front_in(alloc: Global, text: &[u8], at: usize) -> Result<(Value, usize), TextFault>
    requires { at ≤ length text.now }
    ensures exact { Answers (λ x. (tree_of x.0, x.1)) result (front_at text.now at) }
    ensures place { IfOk result (λ x. x.1 ≤ length text.now) }
{
    let (_, front) = text.split_at(at);
    match value_at(alloc, 64, None, front) {
        Ok((value, rest)) => Ok((value, text.len().saturating_sub(rest.len()))),
        Err(TextStop::Left(left)) => Err(TextFault::At(text.len().saturating_sub(left))),
        Err(TextStop::NoMemory) => Err(TextFault::NoMemory),
    }
}

/// The value whose text this is; or the place of the fault, where it is none.
pub fn read(alloc: Global, text: &[u8]) -> Result<Value, TextFault>
    // Which value or which fault it is; want of memory alone is free.
    ensures exact { Answers tree_of result (reading_of text.now) }
    // What is read is this text.
    ensures found { IfOk result (λ value. IsTextOf text.now (tree_of value)) }
    // A text that a value has is read.
    ensures only { (x : Tree) → IsTextOf text.now x → Answers tree_of result (Ok x) }
{
    whole_in(alloc, text)
}

/// Does the same; its contract speaks of reading alone.
fn whole_in(alloc: Global, text: &[u8]) -> Result<Value, TextFault>
    ensures { Answers tree_of result (reading_of text.now) }
{
    match front_in(alloc, text, 0) {
        Ok((value, behind)) => alone(value, behind, text.len()),
        Err(fault) => Err(fault),
    }
}

/// A value, where the text ends at the place behind it.
fn alone(value: Value, behind: usize, end: usize) -> Result<Value, TextFault>
    ensures { Answers tree_of result (ended end (Ok (tree_of value, behind))) }
{
    if behind == end {
        return Ok(value);
    }
    Err(TextFault::At(behind))
}
