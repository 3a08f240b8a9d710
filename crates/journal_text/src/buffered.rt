//! A buffer in front of a sink.

ghost use Rattle.std.specs.Prelude.{◌≡◌, ◌+◌, ◌<◌, ◌≤◌, [], ◌++◌, length, take, drop, Some, OnOk, IfOk, IfErr, MatchResult, vec_len, vec_capacity};
ghost use Rattle.streams.specs.Cause.{HasCause};
ghost use Rattle.streams.specs.Content.{HasWritten, told_more};
ghost use Rattle.streams.specs.Taken.{IsTakenInPart};
ghost use Rattle.value_text.specs.Handing.{HandsText};
ghost use Rattle.journal_text.specs.Buffers.{most_held, entered_since, EntersBuffer, IsBuffer, PassesOn};
ghost use Rattle.journal_text.specs.EntryText.{call_line};
ghost use Rattle.journal_text.specs.JournalStates.{IsCutShort};

use crate::spelling::spell_entry;
use call_rules::Entry;
use lists::{Appended, NotedBytes};
use std::alloc::Global;
use std::marker::Model;
use std::snapshot::Snapshot;
use streams::{Failed, Sink, write_all};

/// How many bytes are held at most.
const MOST_HELD: usize = 65_536;

/// A sink and bytes on their way to it.
#[derive(Drop)]
pub(crate) struct Buffered<K: Sink> {
    sink: K,
    // What the sink hasn't taken yet.
    held: Vec<u8>,
    // The sink as it was when a line began, for proofs alone.
    start: Snapshot<K>,
    // What it has taken since then, piece by piece, for proofs alone.
    passed: Appended<NotedBytes>,
}

impl<K: Sink> Model for Buffered<K> {
    ghost use Rattle.std.specs.Prelude.{◌≤◌, vec_capacity};
    ghost use Rattle.std.specs.List.{concat};
    ghost use Rattle.journal_text.specs.Buffers.{most_held, BufferState, IsBuffer};

    ghost Value = { BufferState K };

    ghost view = { λ b. record { sink = b.sink; start = b.start.value; passed = concat b.passed; held = b.held.items } };

    ghost invariant = { λ b. IsBuffer (K.taken b.start.value) (K.taken b.sink) (concat b.passed) b.held.items × (most_held ≤ vec_capacity b.held) };
}

impl<K: Sink> Buffered<K> {
    /// A sink with a buffer in front; where there is no memory for one, the sink comes back.
    pub(crate) fn over(alloc: Global, sink: K) -> Result<Self, K>
        ensures ok { IfOk result (λ made. (made.sink ≡ sink) × (made.held ≡ [])) }
        ensures err { IfErr result (λ given. given ≡ sink) }
    {
        let Ok(held) = Vec::with_capacity(alloc, MOST_HELD) else {
            return Err(sink);
        };
        let start = Snapshot::of(&sink);
        Ok(Buffered {
            sink,
            held,
            start,
            passed: Appended::new(),
        })
    }

    /// Gives the sink, and drops what it hasn't taken.
    pub(crate) fn into_sink(self) -> K
        ensures { result ≡ self.sink }
    {
        self.sink
    }

    /// Puts the line of an entry in, and hands to the sink what there is no room for.
    pub(crate) fn put_line(&mut self, entry: &Entry) -> Result<(), Failed>
        ensures handed { HandsText (told_more (K.taken self.old.sink) self.old.held) (told_more (K.taken self.new.sink) self.new.held)
            (K.faults self.old.sink) (K.faults self.new.sink) (call_line entry.now) result }
        ensures entered { OnOk result (EntersBuffer (K.taken self.old.sink) (K.taken self.new.sink) self.old.held self.new.held (call_line entry.now)) }
    {
        self.begin_line();
        let put = spell_entry(self, entry);
        self.is_buffer();
        put
    }

    /// Writes the line of an entry, and doesn't return before the sink has taken all of it or failed.
    pub(crate) fn write_line(&mut self, entry: &Entry) -> Result<(), Failed>
        requires none_held { self.old.held ≡ [] }
        ensures taken { MatchResult result
            (λ _. K.taken self.new.sink ≡ told_more (K.taken self.old.sink) (call_line entry.now))
            (λ _. IsCutShort (K.taken self.old.sink) (K.taken self.new.sink) (call_line entry.now)) }
        ensures empty { OnOk result (self.new.held ≡ []) }
        ensures cause { HasCause (K.faults self.old.sink) (K.faults self.new.sink) result }
    {
        self.put_line(entry)?;
        self.flush()
    }

    /// Hands all that is held to the sink.
    pub(crate) fn flush(&mut self) -> Result<(), Failed>
        ensures taken { MatchResult result
            (λ _. K.taken self.new.sink ≡ told_more (K.taken self.old.sink) self.old.held)
            (λ _. IsTakenInPart (K.taken self.old.sink) (K.taken self.new.sink) self.old.held) }
        ensures empty { OnOk result (self.new.held ≡ []) }
        ensures cause { HasCause (K.faults self.old.sink) (K.faults self.new.sink) result }
    {
        let written = write_all(&mut self.sink, self.held.as_slice());
        self.start = Snapshot::of(&self.sink);
        self.passed = Appended::new();
        written?;
        self.held.clear();
        Ok(())
    }

    /// From here on a line goes in. It does nothing when it runs.
    fn begin_line(&mut self)
        ensures sink { self.new.sink ≡ self.old.sink }
        ensures held { self.new.held ≡ self.old.held }
        ensures start { self.new.start ≡ self.old.sink }
        ensures none { self.new.passed ≡ [] }
    {
        self.start = Snapshot::of(&self.sink);
        self.passed = Appended::new();
    }

    /// What always holds of it. It does nothing when it runs.
    fn is_buffer(&self)
        ensures { IsBuffer (K.taken self.now.start) (K.taken self.now.sink) self.now.passed self.now.held }
    {
        let _held = &self.held;
    }

    /// Holds as many bytes as there is room for, and makes room before where there is none.
    #[inline(never)]
    fn hold_some(&mut self, bytes: &[u8]) -> Result<usize, Failed>
        requires some { 0 < length bytes.now }
        ensures told { MatchResult result
            (λ count. HasWritten (Some (entered_since (K.taken self.old.start) self.old.passed self.old.held))
            (Some (entered_since (K.taken self.new.start) self.new.passed self.new.held)) bytes.now count)
            (λ _. entered_since (K.taken self.new.start) self.new.passed self.new.held ≡ entered_since (K.taken self.old.start) self.old.passed self.old.held) }
        ensures cause { HasCause (K.faults self.old.sink) (K.faults self.new.sink) result }
    {
        let count = self.held.len();
        if count < MOST_HELD {
            return Ok(hold_front(&mut self.held, bytes));
        }
        let passed = make_room(&mut self.sink, &mut self.held)?;
        self.passed.push(&passed);
        Ok(hold_front(&mut self.held, bytes))
    }
}

impl<K: Sink> Sink for Buffered<K> {
    ghost use Rattle.std.specs.Prelude.{Some};
    ghost use Rattle.journal_text.specs.Buffers.{entered_since};

    ghost taken = { λ b. Some (entered_since (K.taken b.start) b.passed b.held) };

    ghost faults = { λ b. K.faults b.sink };

    #[inline(always)]
    fn write(&mut self, bytes: &[u8]) -> Result<usize, Failed> {
        let room = MOST_HELD - self.held.len();
        if bytes.len() <= room {
            hold(&mut self.held, bytes);
            return Ok(bytes.len());
        }
        self.hold_some(bytes)
    }
}

/// Hands some of what is held to a sink, so that there is room; answers what the sink took.
fn make_room<K: Sink>(sink: &mut K, held: &mut Vec<u8>) -> Result<NotedBytes, Failed>
    requires { 0 < vec_len held.old }
    ensures passed { MatchResult result
        (λ bytes. PassesOn (K.taken sink.old) (K.taken sink.new) held.old.items held.new.items bytes)
        (λ _. (K.taken sink.new ≡ K.taken sink.old) × (held.new.items ≡ held.old.items)) }
    ensures room { OnOk result (vec_len held.new < vec_len held.old) }
    ensures capacity { vec_capacity held.new ≡ vec_capacity held.old }
    ensures cause { HasCause (K.faults sink.old) (K.faults sink.new) result }
{
    let count = sink.write(held.as_slice())?;
    let (front, _) = held.as_slice().split_at(count);
    let passed = NotedBytes::of(front);
    cut_front(held, count);
    Ok(passed)
}

/// Holds as many bytes as there is room for; answers how many. Takes no memory.
fn hold_front(held: &mut Vec<u8>, bytes: &[u8]) -> usize
    requires roomy { most_held ≤ vec_capacity held.old }
    requires less { vec_len held.old < most_held }
    requires some { 0 < length bytes.now }
    ensures items { held.new.items ≡ held.old.items ++ take result bytes.now }
    ensures count { result ≤ length bytes.now }
    ensures some { 0 < result }
    ensures more { length held.old.items < length held.new.items }
    ensures bound { length held.new.items ≤ most_held }
    ensures capacity { vec_capacity held.old ≤ vec_capacity held.new }
{
    let count = bytes.len().min(MOST_HELD - held.len());
    let (front, _) = bytes.split_at(count);
    hold(held, front);
    count
}

/// Drops bytes at the front.
fn cut_front(held: &mut Vec<u8>, count: usize)
    requires { count ≤ vec_len held.old }
    ensures items { held.new.items ≡ drop count held.old.items }
    ensures len { vec_len held.new + count ≡ vec_len held.old }
    ensures capacity { vec_capacity held.new ≡ vec_capacity held.old }
{
    let left = held.len() - count;
    held.rotate_left(count);
    held.truncate(left);
}

/// Appends bytes for which there is room; takes no memory.
fn hold(held: &mut Vec<u8>, bytes: &[u8])
    requires { vec_len held.old + length bytes.now ≤ vec_capacity held.old }
    ensures items { held.new.items ≡ held.old.items ++ bytes.now }
    ensures capacity { vec_capacity held.old ≤ vec_capacity held.new }
{
    if held.extend_from_slice(bytes).is_err() {
        unreachable!();
    }
}
