//! What a report asks of the journal: its entries, and the line of each.

ghost use Rattle.std.specs.Prelude.{◌≡◌, ◌++◌, ℕ, List, Some, length, slice_get, IfSome, OnOk};
ghost use Rattle.std.specs.Option.{option_copied};
ghost use Rattle.text_out.specs.Line.{line_of};
ghost use Rattle.call_rules.specs.Entries.{CallEntry};
ghost use Rattle.call_rules.specs.PlainCalls.{IsPlainCall, IsPlainAnswer};
ghost use Rattle.run_report.specs.Entries.{IsPlainEntry};

use call_rules::{Entry, Journal};
use std::alloc::AllocError;

/// The line of an entry.
pub trait EntryLine {
    // The line, without the newline behind it.
    ghost line: { CallEntry → List ℕ };

    /// Appends an entry's line and a newline.
    fn put(into: &mut Vec<u8>, entry: &Entry) -> Result<(), AllocError>
        requires call { IsPlainCall entry.now.call }
        requires answer { IsPlainAnswer entry.now.answer }
        ensures { OnOk result (into.new.items ≡ into.old.items ++ line_of (line entry.now)) };
}

/// A journal whose entries stand in memory, each of which is plain.
pub trait ReportedJournal: Journal {
    // Its entries, in the order in which they took effect.
    ghost listed: { Self → List CallEntry };

    /// How many entries there are.
    fn count(&self) -> u64
        ensures { result ≡ length (listed self.now) };

    /// The entry of this number, counted from 0.
    fn entry(&self, i: u64) -> Option<&Entry>
        ensures entry { option_copied result ≡ slice_get (listed self.now) i }
        ensures plain { IfSome result (λ entry. IsPlainEntry entry.now) };

    // It tells them.
    ghost tells: { (journal : Self) → Self.told journal ≡ Some (listed journal) };
}
