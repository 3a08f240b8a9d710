//! The journal of a run: entries in memory, and their lines in a report.

ghost use Rattle.std.specs.Prelude.{◌≡◌, []};
ghost use Rattle.journal_text.specs.EntryText.{entry_text};

use call_rules::{Entry, Journal};
use journal_text::{SegmentJournal, put_entry};
use run_report::{EntryLine, ReportedJournal};
use std::alloc::{AllocError, Global};
use std::marker::Model;
use streams::Failed;

/// The lines of entries, as journals print them.
pub(crate) struct JournalLines;

impl EntryLine for JournalLines {
    ghost line = { entry_text };

    fn put(into: &mut Vec<u8>, entry: &Entry) -> Result<(), AllocError> {
        put_entry(into, entry)
    }
}

/// Entries in memory, to be reported. It never fails.
#[derive(Drop)]
pub(crate) struct ReportedList {
    /// The entries, each of which is plain.
    list: SegmentJournal,
}

impl Model for ReportedList {
    ghost use Rattle.std.specs.Prelude.{All};
    ghost use Rattle.journal_text.specs.JournalStates.{ListedEntries, listed_entries_code};
    ghost use Rattle.run_report.specs.Entries.{IsPlainEntry};

    ghost Value = { ListedEntries };

    ghost coded = { listed_entries_code };

    ghost view = { λ j. j.list };

    ghost invariant = { λ j. All IsPlainEntry j.list.entries };
}

impl ReportedList {
    /// Makes a journal without entries; takes no memory.
    pub(crate) fn new(alloc: Global) -> Self
        ensures { result.entries ≡ [] }
    {
        ReportedList {
            list: SegmentJournal::new(alloc),
        }
    }
}

impl Journal for ReportedList {
    ghost use Rattle.std.specs.Prelude.{false, Some};

    ghost told = { λ j. Some j.entries };

    ghost faults = { λ _. 0 };

    ghost torn = { λ _. false };

    ghost room = { λ j. j.room };

    fn reserve(&mut self) -> Result<(), AllocError> {
        self.list.reserve()
    }

    fn append(&mut self, entry: Entry) -> Result<(), Failed> {
        self.list.append(entry)
    }
}

impl ReportedJournal for ReportedList {
    ghost use Rattle.std.specs.Prelude.{refl};

    ghost listed = { λ j. j.entries };

    fn count(&self) -> u64 {
        self.list.count()
    }

    fn entry(&self, i: u64) -> Option<&Entry> {
        self.list.entry(i)
    }

    ghost tells = { λ _. refl };
}
