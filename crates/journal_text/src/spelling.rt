//! Hands the lines of entries to a sink, and takes no memory.

ghost use Rattle.std.specs.Prelude.{◌≡◌, ◌++◌, codes, OnErr};
ghost use Rattle.text_out.specs.Decimal.{decimal_of};
ghost use Rattle.thrift_value.specs.TreeOf.{tree_of};
ghost use Rattle.value_text.specs.Handing.{HandsText};
ghost use Rattle.value_text.specs.ValueText.{tree_text};
ghost use Rattle.call_rules.specs.Answers.{plain_answer};
ghost use Rattle.host_model.specs.Report.{journal_lines};
ghost use Rattle.journal_text.specs.EntryText.{next_word, front_text, answered_text, call_line, entry_text};
ghost use Rattle.journal_text.specs.JournalStates.{IsTakenShort};

use crate::front::{MOST_FRONT, put_front};
use call_rules::{Answer, Call, Entry, Key};
use itoa::Buffer;
use streams::{Failed, Sink};
use thrift_value::Value;
use value_text::{hand_over, spell_value};

/// Hands the line of an entry to a sink. Where it fails, some of the line is lost.
pub(crate) fn spell_entry<K: Sink>(out: &mut K, entry: &Entry) -> Result<(), Failed>
    ensures handed { HandsText (K.taken out.old) (K.taken out.new) (K.faults out.old) (K.faults out.new) (call_line entry.now) result }
    ensures short { OnErr result (IsTakenShort (K.taken out.old) (K.taken out.new) (call_line entry.now)) }
{
    spell_text(out, entry)?;
    end_line(out)
}

/// Hands the lines of entries to a sink. Where it fails, some of them is lost.
pub(crate) fn spell_entries<K: Sink>(out: &mut K, entries: &[Entry]) -> Result<(), Failed>
    ensures handed { HandsText (K.taken out.old) (K.taken out.new) (K.faults out.old) (K.faults out.new) (journal_lines entry_text entries.now) result }
    ensures short { OnErr result (IsTakenShort (K.taken out.old) (K.taken out.new) (journal_lines entry_text entries.now)) }
{
    for entry in entries {
        spell_entry(out, entry)?;
    }
    Ok(())
}

/// Hands the text of an entry.
fn spell_text<K: Sink>(out: &mut K, entry: &Entry) -> Result<(), Failed>
    ensures { HandsText (K.taken out.old) (K.taken out.new) (K.faults out.old) (K.faults out.new) (entry_text entry.now) result }
{
    spell_front(out, &entry.key, &entry.call)?;
    spell_asked(out, &entry.call)?;
    spell_answer(out, &entry.answer)
}

/// Ends a line.
fn end_line<K: Sink>(out: &mut K) -> Result<(), Failed>
    ensures handed { HandsText (K.taken out.old) (K.taken out.new) (K.faults out.old) (K.faults out.new) (codes "\n") result }
    ensures none { OnErr result (K.taken out.new ≡ K.taken out.old) }
{
    out.write(b"\n")?;
    Ok(())
}

/// Hands the words in front of the method, and the blank behind them.
fn spell_front<K: Sink>(out: &mut K, key: &Key, call: &Call) -> Result<(), Failed>
    ensures { HandsText (K.taken out.old) (K.taken out.new) (K.faults out.old) (K.faults out.new)
        (front_text call.now.silent key.now call.now.slot ++ codes " ") result }
{
    let mut room = [0; MOST_FRONT];
    let start = put_front(&mut room, key, call);
    let (_, front) = room.split_at(start);
    hand_over(out, front)
}

/// Hands the method and its arguments.
fn spell_asked<K: Sink>(out: &mut K, call: &Call) -> Result<(), Failed>
    ensures { HandsText (K.taken out.old) (K.taken out.new) (K.faults out.old) (K.faults out.new)
        (call.now.method ++ next_word (tree_text call.now.args)) result }
{
    hand_over(out, call.method.as_slice())?;
    spell_behind(out, b" ", &call.args)
}

/// Hands a word and a value.
fn spell_behind<K: Sink>(out: &mut K, word: &[u8], value: &Value) -> Result<(), Failed>
    ensures { HandsText (K.taken out.old) (K.taken out.new) (K.faults out.old) (K.faults out.new)
        (word.now ++ tree_text (tree_of value.now)) result }
{
    hand_over(out, word)?;
    spell_value(out, value)
}

/// Hands an answer.
fn spell_answer<K: Sink>(out: &mut K, answer: &Answer) -> Result<(), Failed>
    ensures { HandsText (K.taken out.old) (K.taken out.new) (K.faults out.old) (K.faults out.new)
        (next_word (answered_text (plain_answer answer.now))) result }
{
    match answer {
        Answer::Success(value) => spell_behind(out, b" ok ", value),
        Answer::Empty => hand_over(out, b" empty"),
        Answer::Throws(id, exception) => spell_thrown(out, id, exception),
        Answer::Broken => hand_over(out, b" broken"),
    }
}

/// Hands an exception and its id.
fn spell_thrown<K: Sink>(out: &mut K, id: &i16, exception: &Value) -> Result<(), Failed>
    ensures { HandsText (K.taken out.old) (K.taken out.new) (K.faults out.old) (K.faults out.new)
        (next_word (codes "throws " ++ (decimal_of id.now ++ next_word (tree_text (tree_of exception.now))))) result }
{
    hand_over(out, b" throws ")?;
    spell_id(out, id)?;
    spell_behind(out, b" ", exception)
}

/// Hands the id of an exception.
fn spell_id<K: Sink>(out: &mut K, id: &i16) -> Result<(), Failed>
    ensures { HandsText (K.taken out.old) (K.taken out.new) (K.faults out.old) (K.faults out.new) (decimal_of id.now) result }
{
    let mut buffer = Buffer::new();
    hand_over(out, buffer.format(*id).as_bytes())
}
