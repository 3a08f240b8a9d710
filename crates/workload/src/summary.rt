//! The summary of a workload that was run.

ghost use Rattle.std.specs.Prelude.{◌≡◌, ◌++◌, pos, IfOk, OnOk};
ghost use Rattle.call_rules.specs.Answers.{plain_answer};
ghost use Rattle.thrift_value.specs.TreeOf.{tree_of};
ghost use Rattle.workload.specs.SummaryText.{told_number, workload_text, value_adds, answer_adds};

use call_rules::Answer;
use std::alloc::{AllocError, Global};
use text_out::decimal;
use thrift_value::Value;

/// What is summed up of a run.
#[derive(Clone, Copy)]
pub struct Summary {
    /// How many connections were opened.
    pub connections: u32,
    /// How many frames were read.
    pub frames: u64,
    /// How many calls were made.
    pub calls: u64,
    /// How many bytes were read.
    pub bytes_in: u64,
    /// How many bytes were written.
    pub bytes_out: u64,
    /// The sum of the numbers that were answered.
    pub sum: i128,
}

/// The text of a summary.
pub fn print_summary(alloc: Global, summary: &Summary) -> Result<Vec<u8>, AllocError>
    ensures { IfOk result (λ text. text.items
        ≡ workload_text summary.now.connections summary.now.frames summary.now.calls summary.now.bytes_in summary.now.bytes_out summary.now.sum) }
{
    let mut text = Vec::new(alloc);
    put_count(&mut text, b"connections ", u64::from(summary.connections))?;
    put_count(&mut text, b"frames ", summary.frames)?;
    put_count(&mut text, b"calls ", summary.calls)?;
    put_count(&mut text, b"bytes in ", summary.bytes_in)?;
    put_count(&mut text, b"bytes out ", summary.bytes_out)?;
    put_told(&mut text, b"sum ", summary.sum)?;
    Ok(text)
}

/// Appends a line of a word and a number from 0 on.
fn put_count(into: &mut Vec<u8>, word: &[u8], n: u64) -> Result<(), AllocError>
    ensures { OnOk result (into.new.items ≡ into.old.items ++ told_number word.now (pos n)) }
{
    put_told(into, word, i128::from(n))
}

/// Appends a line of a word and a number.
fn put_told(into: &mut Vec<u8>, word: &[u8], n: i128) -> Result<(), AllocError>
    ensures { OnOk result (into.new.items ≡ into.old.items ++ told_number word.now n) }
{
    into.extend_from_slice(word)?;
    decimal(into, n)?;
    into.push(b'\n')?;
    Ok(())
}

/// What an answer adds to the sum of a run: its number, where it is a success with an i32, else 0.
pub fn answer_adds(answer: &Answer) -> i32
    ensures { result ≡ answer_adds (plain_answer answer.now) }
{
    match answer {
        Answer::Success(value) => value_adds(value),
        Answer::Empty => 0,
        Answer::Throws(_, _) => 0,
        Answer::Broken => 0,
    }
}

/// What a value adds to the sum.
#[tactic(auto, using(thrift_value::proofs::Trees::tree_equations))]
fn value_adds(value: &Value) -> i32
    ensures { result ≡ value_adds (tree_of value.now) }
{
    match value {
        Value::I32(number) => *number,
        _ => 0,
    }
}
