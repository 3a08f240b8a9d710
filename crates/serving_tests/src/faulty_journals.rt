//! A journal in memory that fails at one of its appends.

ghost use Rattle.std.specs.Prelude.{◌≡◌, [], false};

use call_rules::{Entry, Journal};
use journal_text::ListJournal;
use run_report::ReportedJournal;
use std::alloc::{AllocError, Global};
use std::marker::Model;
use streams::Failed;

// A journal that fails at the append with this number, and at all after it.
#[derive(Drop)]
pub(crate) struct FaultyJournal {
    list: ListJournal,
    fails_at: usize,
    faults: u64,
    torn: bool,
}

impl Model for FaultyJournal {
    ghost use Rattle.std.specs.Prelude.{ℕ, Bool, All};
    ghost use Rattle.std.specs.Coded.{coded×, coded_ℕ, coded_bool};
    ghost use Rattle.journal_text.specs.JournalStates.{ListedEntries, listed_entries_code};
    ghost use Rattle.run_report.specs.Entries.{IsPlainEntry};

    ghost Value = { ListedEntries × (ℕ × Bool) };

    ghost coded = { coded× listed_entries_code (coded× coded_ℕ coded_bool) };

    ghost view = { λ j. (j.list, (j.faults, j.torn)) };

    ghost invariant = { λ j. All IsPlainEntry j.list.entries };
}

impl FaultyJournal {
    // Makes a journal without entries.
    pub(crate) fn new(alloc: Global, fails_at: usize) -> Self
        ensures empty { result.0.entries ≡ [] }
        ensures whole { result.1.1 ≡ false }
    {
        FaultyJournal {
            list: ListJournal::new(alloc),
            fails_at,
            faults: 0,
            torn: false,
        }
    }

    // Its entries, the oldest first.
    pub(crate) fn entries(&self) -> &[Entry] {
        self.list.entries()
    }
}

impl Journal for FaultyJournal {
    ghost use Rattle.std.specs.Prelude.{Some};

    ghost told = { λ j. Some j.0.entries };

    ghost faults = { λ j. j.1.0 };

    ghost torn = { λ j. j.1.1 };

    ghost room = { λ j. j.0.room };

    fn reserve(&mut self) -> Result<(), AllocError> {
        self.list.reserve()
    }

    fn append(&mut self, entry: Entry) -> Result<(), Failed> {
        if self.fails_at <= self.list.entries().len() {
            self.torn = true;
            self.faults = self.faults.saturating_add(1);
            return Err(Failed);
        }
        self.list.append(entry)
    }
}

impl ReportedJournal for FaultyJournal {
    ghost use Rattle.std.specs.Prelude.{refl};

    ghost listed = { λ j. j.0.entries };

    fn count(&self) -> u64 {
        self.list.entries().len() as u64
    }

    fn entry(&self, i: u64) -> Option<&Entry> {
        self.list.entries().get(i as usize)
    }

    ghost tells = { λ _. refl };
}
