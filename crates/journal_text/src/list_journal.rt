//! A journal in memory.

ghost use Rattle.std.specs.Prelude.{◌≡◌, ◌≤◌, ◌∷◌, [], ◌++◌, OnOk, IsOk};
ghost use Rattle.streams.specs.Cause.{HasCause};
ghost use Rattle.call_rules.specs.PlainCalls.{IsPlainCall, IsPlainAnswer};

use call_rules::{Entry, Journal};
use std::alloc::{AllocError, Global};
use std::marker::Model;
use streams::Failed;

/// A journal that keeps its entries in memory. It never fails.
#[derive(Drop)]
pub struct ListJournal {
    // The oldest first.
    entries: Vec<Entry>,
}

impl Model for ListJournal {
    ghost use Rattle.std.specs.Prelude.{◌-◌, vec_len, vec_capacity};
    ghost use Rattle.journal_text.specs.JournalStates.{ListedEntries, listed_entries_code};

    ghost Value = { ListedEntries };

    ghost coded = { listed_entries_code };

    ghost view = { λ j. record { entries = j.entries.items; room = vec_capacity j.entries - vec_len j.entries } };
}

impl ListJournal {
    /// Makes a journal without entries; takes no memory.
    pub fn new(alloc: Global) -> Self
        ensures { result.entries ≡ [] }
    {
        ListJournal {
            entries: Vec::new(alloc),
        }
    }

    /// The entries, the oldest first.
    pub fn entries(&self) -> &[Entry]
        ensures { result.now ≡ self.now.entries }
    {
        self.entries.as_slice()
    }

    /// Gives the entries, the oldest first; takes no memory.
    pub fn into_entries(self) -> Vec<Entry>
        ensures { result.items ≡ self.entries }
    {
        self.entries
    }
}

impl Journal for ListJournal {
    ghost use Rattle.std.specs.Prelude.{false, Some};

    ghost told = { λ j. Some j.entries };

    ghost faults = { λ _. 0 };

    ghost torn = { λ _. false };

    ghost room = { λ j. j.room };

    fn reserve(&mut self) -> Result<(), AllocError> {
        self.entries.reserve(1)
    }

    fn append(&mut self, entry: Entry) -> Result<(), Failed>
        requires reserved { 1 ≤ self.old.room }
        ensures entered { self.new.entries ≡ self.old.entries ++ entry ∷ [] }
        ensures done { IsOk result }
    {
        self.entries.push_reserved(entry);
        Ok(())
    }
}
