//! A journal of keys, that fails at one of its appends.

ghost use Rattle.std.specs.Prelude.{◌≡◌, false};

use call_rules::{Entry, Journal, Key};
use std::alloc::{AllocError, Global};
use streams::Failed;

/// A journal that keeps the keys of its entries, tells none of them, and fails at the append of this number and after it.
#[derive(Drop)]
pub(crate) struct KeyJournal {
    pub keys: Vec<Key>,
    fails_at: usize,
    faults: u64,
    pub torn: bool,
}

impl KeyJournal {
    /// Makes a journal without keys.
    pub(crate) fn new(alloc: Global, fails_at: usize) -> Self
        ensures whole { result.torn ≡ false }
    {
        KeyJournal {
            keys: Vec::new(alloc),
            fails_at,
            faults: 0,
            torn: false,
        }
    }
}

impl Journal for KeyJournal {
    ghost use Rattle.std.specs.Prelude.{None};

    ghost told = { λ _. None };

    ghost faults = { λ j. j.faults };

    ghost torn = { λ j. j.torn };

    ghost room = { λ _. 1 };

    fn reserve(&mut self) -> Result<(), AllocError> {
        self.keys.reserve(1)
    }

    fn append(&mut self, entry: Entry) -> Result<(), Failed> {
        let key = entry.key;
        drop(entry);
        if self.fails_at <= self.keys.len() {
            self.torn = true;
            self.faults = self.faults.saturating_add(1);
            return Err(Failed);
        }
        let _ = self.keys.push(key);
        Ok(())
    }
}
