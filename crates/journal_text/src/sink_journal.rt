//! A journal that a sink takes, line by line.

ghost use Rattle.std.specs.Prelude.{◌≡◌, ◌∷◌, [], ◌++◌, false, true, IfOk, IfErr, IsOk, MatchResult};
ghost use Rattle.streams.specs.Cause.{HasCause};
ghost use Rattle.streams.specs.Content.{told_more};
ghost use Rattle.call_rules.specs.PlainCalls.{IsPlainCall, IsPlainAnswer};
ghost use Rattle.journal_text.specs.EntryText.{call_line};
ghost use Rattle.journal_text.specs.JournalStates.{appended_count, HasLines, IsCutShort};

use crate::buffered::Buffered;
use call_rules::{Entry, Journal};
use lists::Appended;
use std::alloc::{AllocError, Global};
use std::marker::Model;
use std::snapshot::Snapshot;
use streams::{Failed, Sink};

/// A journal that writes the line of each entry into a sink, before the next one is entered.
#[derive(Drop)]
pub struct SinkJournal<K: Sink> {
    out: Buffered<K>,
    // How many entries were appended; it stands still at its type's end.
    count: u64,
    // Whether an append failed.
    torn: bool,
    // The entries, for proofs alone.
    appended: Appended<Entry>,
    // The sink as it was handed in, for proofs alone.
    opening: Snapshot<K>,
}

impl<K: Sink> Model for SinkJournal<K> {
    ghost use Rattle.journal_text.specs.JournalStates.{WrittenEntries, written_entries_code, IsWritten};

    ghost Value = { WrittenEntries K };

    ghost coded = { written_entries_code K.code };

    ghost view = { λ j. record { sink = j.out.sink; opening = j.opening.value; entries = j.appended; torn = j.torn } };

    ghost invariant = { λ j. IsWritten (K.taken j.opening.value) (K.taken j.out.sink) j.out.held j.appended j.count j.torn };
}

/// There was no memory. The sink comes back.
#[derive(Drop)]
pub struct NoJournal<K>(pub K);

impl<K: Sink> SinkJournal<K> {
    /// A journal without entries, whose lines this sink takes.
    pub fn new(alloc: Global, sink: K) -> Result<Self, NoJournal<K>>
        ensures ok { IfOk result (λ journal. journal ≡ record { sink = sink; opening = sink; entries = []; torn = false }) }
        ensures err { IfErr result (λ no. no.0 ≡ sink) }
    {
        let opening = Snapshot::of(&sink);
        match Buffered::over(alloc, sink) {
            Err(sink) => Err(NoJournal(sink)),
            Ok(out) => Ok(SinkJournal {
                out,
                count: 0,
                torn: false,
                appended: Appended::new(),
                opening,
            }),
        }
    }

    /// How many entries were appended; it stands still at 2^64 - 1.
    pub fn count(&self) -> u64
        ensures { result ≡ appended_count self.now.entries }
    {
        self.count
    }

    /// Gives the sink; takes no memory. Unless an append failed, the sink has taken the lines of the entries, and nothing else, since it was handed in.
    pub fn into_sink(self) -> K
        ensures sink { result ≡ self.sink }
        ensures lines { self.torn ≡ false → HasLines (K.taken self.opening) (K.taken result) self.entries }
    {
        self.out.into_sink()
    }
}

impl<K: Sink> Journal for SinkJournal<K> {
    ghost use Rattle.std.specs.Prelude.{Some};

    ghost told = { λ j. Some j.entries };

    ghost faults = { λ j. K.faults j.sink };

    ghost torn = { λ j. j.torn };

    ghost room = { λ _. 1 };

    /// Takes nothing: there is always room.
    fn reserve(&mut self) -> Result<(), AllocError>
        ensures same { self.new ≡ self.old }
        ensures done { IsOk result }
    {
        Ok(())
    }

    fn append(&mut self, entry: Entry) -> Result<(), Failed>
        requires whole { self.old.torn ≡ false }
        requires call { IsPlainCall entry.call }
        requires answer { IsPlainAnswer entry.answer }
        ensures entered { MatchResult result
            (λ _. self.new.entries ≡ self.old.entries ++ entry ∷ [])
            (λ _. self.new.entries ≡ self.old.entries) }
        ensures torn { MatchResult result (λ _. self.new.torn ≡ false) (λ _. self.new.torn ≡ true) }
        ensures cause { HasCause (K.faults self.old.sink) (K.faults self.new.sink) result }

        // The sink has the whole line, or a beginning of it.
        ensures taken { MatchResult result
            (λ _. K.taken self.new.sink ≡ told_more (K.taken self.old.sink) (call_line entry))
            (λ _. IsCutShort (K.taken self.old.sink) (K.taken self.new.sink) (call_line entry)) }
        ensures opening { self.new.opening ≡ self.old.opening }
    {
        if let Err(fault) = self.out.write_line(&entry) {
            self.torn = true;
            return Err(fault);
        }
        self.appended.push(&entry);
        self.count = self.count.saturating_add(1);
        Ok(())
    }
}
