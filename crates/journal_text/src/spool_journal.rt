//! A journal whose lines stand in a buffer before a sink takes them.

ghost use Rattle.std.specs.Prelude.{◌≡◌, ◌∷◌, [], ◌++◌, false, true, None, Some, IfOk, IfErr, IsOk, OnErr, OnOk, MatchResult};
ghost use Rattle.streams.specs.Cause.{HasCause};
ghost use Rattle.streams.specs.Content.{told_more};
ghost use Rattle.streams.specs.Taken.{IsTakenInPart};
ghost use Rattle.host_model.specs.Report.{journal_lines};
ghost use Rattle.call_rules.specs.PlainCalls.{IsPlainCall, IsPlainAnswer};
ghost use Rattle.journal_text.specs.Buffers.{EntersBuffer};
ghost use Rattle.journal_text.specs.EntryText.{entry_text, call_line};
ghost use Rattle.journal_text.specs.JournalStates.{appended_count, IsCutShort};
ghost use Rattle.journal_text.specs.Spooled.{HasLinesWith, HasSomeLines};

use crate::buffered::Buffered;
use crate::sink_journal::NoJournal;
use call_rules::{Entry, Journal};
use lists::Appended;
use std::alloc::{AllocError, Global};
use std::marker::Model;
use std::snapshot::Snapshot;
use streams::{Failed, Sink};

/// A journal that writes the lines of its entries into a sink, each time that its buffer has no room for the next one.
#[derive(Drop)]
pub struct SpoolJournal<K: Sink> {
    out: Buffered<K>,
    // How many entries were appended; it stands still at its type's end.
    count: u64,
    // Whether an append or a finish failed.
    failed: bool,
    // The entries, for proofs alone.
    appended: Appended<Entry>,
    // The entry whose append failed, where one did, for proofs alone.
    unwritten: Snapshot<Option<Entry>>,
    // The sink as it was handed in, for proofs alone.
    opening: Snapshot<K>,
}

impl<K: Sink> Model for SpoolJournal<K> {
    ghost use Rattle.journal_text.specs.Spooled.{SpooledEntries, spooled_entries_code, IsSpooled};

    ghost Value = { SpooledEntries K };

    ghost coded = { spooled_entries_code K.code };

    ghost view = { λ j. record {
      sink = j.out.sink;
      opening = j.opening.value;
      held = j.out.held;
      entries = j.appended;
      unwritten = j.unwritten.value;
      failed = j.failed;
    } };

    ghost invariant = { λ j. IsSpooled (K.taken j.opening.value) (K.taken j.out.sink) j.out.held j.appended j.count j.unwritten.value j.failed };
}

impl<K: Sink> SpoolJournal<K> {
    /// A journal without entries, whose lines this sink takes.
    pub fn new(alloc: Global, sink: K) -> Result<Self, NoJournal<K>>
        ensures ok { IfOk result (λ journal. journal ≡ record { sink = sink; opening = sink; held = []; entries = []; unwritten = None; failed = false }) }
        ensures err { IfErr result (λ no. no.0 ≡ sink) }
    {
        let opening = Snapshot::of(&sink);
        match Buffered::over(alloc, sink) {
            Err(sink) => Err(NoJournal(sink)),
            Ok(out) => Ok(SpoolJournal {
                out,
                count: 0,
                failed: false,
                appended: Appended::new(),
                unwritten: Snapshot::of(&None),
                opening,
            }),
        }
    }

    /// How many entries were appended; it stands still at 2^64 - 1.
    pub fn count(&self) -> u64
        ensures { result ≡ appended_count self.now.entries }
    {
        self.count
    }

    /// Whether an append or a finish has failed.
    pub fn failed(&self) -> bool
        ensures { result ≡ self.now.failed }
    {
        self.failed
    }

    /// Writes what is held, and answers how many entries were appended. Once it has failed, nothing is appended and finished any more.
    pub fn finish(&mut self) -> Result<u64, Failed>
        requires whole { self.old.failed ≡ false }
        ensures count { IfOk result (λ n. n ≡ appended_count self.old.entries) }
        ensures empty { IfOk result (λ _. self.new.held ≡ []) }
        ensures failed { MatchResult result (λ _. self.new.failed ≡ false) (λ _. self.new.failed ≡ true) }
        ensures taken { MatchResult result
            (λ _. K.taken self.new.sink ≡ told_more (K.taken self.old.sink) self.old.held)
            (λ _. IsTakenInPart (K.taken self.old.sink) (K.taken self.new.sink) self.old.held) }
        ensures entries { self.new.entries ≡ self.old.entries }
        ensures unwritten { self.new.unwritten ≡ None }
        ensures opening { self.new.opening ≡ self.old.opening }
        ensures cause { HasCause (K.faults self.old.sink) (K.faults self.new.sink) result }
    {
        if let Err(fault) = self.out.flush() {
            self.failed = true;
            return Err(fault);
        }
        Ok(self.count)
    }

    /// Gives the sink, and drops what it hasn't taken; takes no memory. Unless an append or a finish failed, what the sink has taken since it was handed in, and what
    /// was held, are the lines of the entries; else it has taken a beginning of them and of the line of the entry whose append failed.
    pub fn into_sink(self) -> K
        ensures sink { result ≡ self.sink }
        ensures lines { self.failed ≡ false → HasLinesWith (K.taken self.opening) (K.taken result) self.held self.entries }
        ensures none { self.failed ≡ false → self.unwritten ≡ None }
        ensures begun { self.failed ≡ true → HasSomeLines (K.taken self.opening) (K.taken result) self.entries self.unwritten }
    {
        self.out.into_sink()
    }
}

impl<K: Sink> Journal for SpoolJournal<K> {
    ghost use Rattle.std.specs.Prelude.{Some};

    ghost told = { λ j. Some j.entries };

    ghost faults = { λ j. K.faults j.sink };

    ghost torn = { λ j. j.failed };

    ghost room = { λ _. 1 };

    /// Takes nothing: there is always room.
    fn reserve(&mut self) -> Result<(), AllocError>
        ensures same { self.new ≡ self.old }
        ensures done { IsOk result }
    {
        Ok(())
    }

    fn append(&mut self, entry: Entry) -> Result<(), Failed>
        requires whole { self.old.failed ≡ false }
        requires call { IsPlainCall entry.call }
        requires answer { IsPlainAnswer entry.answer }
        ensures entered { MatchResult result
            (λ _. self.new.entries ≡ self.old.entries ++ entry ∷ [])
            (λ _. self.new.entries ≡ self.old.entries) }
        ensures torn { MatchResult result (λ _. self.new.failed ≡ false) (λ _. self.new.failed ≡ true) }
        ensures cause { HasCause (K.faults self.old.sink) (K.faults self.new.sink) result }
        ensures opening { self.new.opening ≡ self.old.opening }
        // At most so many bytes are held, and where there is room for the line, the sink takes nothing.
        ensures buffer { OnOk result (EntersBuffer (K.taken self.old.sink) (K.taken self.new.sink) self.old.held self.new.held (call_line entry)) }
        // Where it fails, this is the entry that isn't written, and the sink has taken a beginning of the lines of the entries and of this one's.
        ensures unwritten { MatchResult result
            (λ _. self.new.unwritten ≡ self.old.unwritten)
            (λ _. self.new.unwritten ≡ Some entry) }
        ensures begun { OnErr result (IsCutShort (K.taken self.old.opening) (K.taken self.new.sink) (journal_lines entry_text (self.old.entries ++ entry ∷ []))) }
    {
        if let Err(fault) = self.out.put_line(&entry) {
            let unwritten = Some(entry);
            self.unwritten = Snapshot::of(&unwritten);
            self.failed = true;
            return Err(fault);
        }
        self.appended.push(&entry);
        self.count = self.count.saturating_add(1);
        Ok(())
    }
}
