//! A journal in memory, in segments.

ghost use Rattle.std.specs.Prelude.{◌≡◌, ◌≢◌, ◌%◌, ◌<◌, ◌≤◌, ◌∷◌, [], ◌++◌, length, slice_get, take, drop, OnOk, OnErr, IsOk, MatchResult};
ghost use Rattle.std.specs.List.{AllByRecursion};
ghost use Rattle.std.specs.VecDeque.{deque_len, deque_capacity};
ghost use Rattle.std.specs.Option.{option_copied};
ghost use Rattle.streams.specs.Cause.{HasCause};
ghost use Rattle.streams.specs.Content.{told_more};
ghost use Rattle.host_model.specs.Report.{journal_lines};
ghost use Rattle.value_text.specs.Handing.{HandsText};
ghost use Rattle.call_rules.specs.PlainCalls.{IsPlainCall, IsPlainAnswer};
ghost use Rattle.journal_text.specs.EntryText.{entry_text};
ghost use Rattle.journal_text.specs.JournalStates.{IsTakenShort};
ghost use Rattle.journal_text.specs.Segments.{chained, segment_room, IsFull, IsSpooledInPart};

use crate::spelling::spell_entries;
use call_rules::{Entry, Journal};
use std::alloc::{AllocError, Global};
use std::collections::VecDeque;
use std::marker::Model;
use std::mem;
use streams::{Failed, Sink};

/// How many entries a segment has room for.
const SEGMENT: usize = 1024;

/// Entries that stand together in memory.
#[derive(Drop)]
struct Segment {
    entries: Vec<Entry>,
}

impl Model for Segment {
    ghost use Rattle.std.specs.Prelude.{List};
    ghost use Rattle.std.specs.Coded.{coded_list};
    ghost use Rattle.call_rules.specs.Entries.{CallEntry, call_entry_code};

    ghost Value = { List CallEntry };

    ghost coded = { coded_list call_entry_code };

    ghost view = { λ s. s.entries.items };
}

/// A journal that keeps its entries in memory, in segments of 1,024, so that none is copied when it grows. It never fails.
#[derive(Drop)]
pub struct SegmentJournal {
    // The segments that are full, the oldest first.
    full: VecDeque<Segment>,
    // The entries behind them.
    last: Vec<Entry>,
    // For how many more there is room behind these.
    free: usize,
    // How many entries there are.
    count: u64,
}

impl Model for SegmentJournal {
    ghost use Rattle.std.specs.Prelude.{◌++◌, vec_capacity};
    ghost use Rattle.journal_text.specs.JournalStates.{ListedEntries, listed_entries_code};
    ghost use Rattle.journal_text.specs.Segments.{chained, AreSegments};

    ghost Value = { ListedEntries };

    ghost coded = { listed_entries_code };

    ghost view = { λ j. record { entries = chained j.full.items ++ j.last.items; room = j.free } };

    ghost invariant = { λ j. AreSegments j.full.items j.last.items j.free (vec_capacity j.last) j.count };
}

impl SegmentJournal {
    /// Makes a journal without entries; takes no memory.
    pub fn new(alloc: Global) -> Self
        ensures { result.entries ≡ [] }
    {
        SegmentJournal {
            full: VecDeque::new(alloc),
            last: Vec::new(alloc),
            free: 0,
            count: 0,
        }
    }

    /// How many entries there are.
    pub fn count(&self) -> u64
        ensures { result ≡ length self.now.entries }
    {
        self.count
    }

    /// The entry of this number, counted from 0; there is none exactly where the number is no lower than the count.
    pub fn entry(&self, i: u64) -> Option<&Entry>
        ensures { option_copied result ≡ slice_get self.now.entries i }
    {
        let segment = i as usize / SEGMENT;
        let place = i as usize % SEGMENT;
        if segment < self.full.len() {
            return self.full[segment].entries.as_slice().get(place);
        }
        if self.full.len() < segment {
            return None;
        }
        self.last.as_slice().get(place)
    }

    /// Writes the lines of all entries, the oldest first, and gives up each segment once its lines are written; takes no memory. Where a write fails,
    /// just those entries are left whose segments weren't written whole, so a journal that is still to be added to isn't spooled.
    pub fn spool<K: Sink>(&mut self, out: &mut K) -> Result<(), Failed>
        ensures told { MatchResult result
            (λ _. K.taken out.new ≡ told_more (K.taken out.old) (journal_lines entry_text self.old.entries))
            (λ _. IsSpooledInPart (K.taken out.old) (K.taken out.new) self.old.entries self.new.entries) }
        ensures empty { OnOk result (self.new.entries ≡ []) }
        ensures cause { HasCause (K.faults out.old) (K.faults out.new) result }
    {
        'segments: while self.count() > 0 {
            self.spool_first(out)?;
        }
        Ok(())
    }

    /// Writes the lines of the oldest segment, and gives it up.
    fn spool_first<K: Sink>(&mut self, out: &mut K) -> Result<(), Failed>
        ensures handed { HandsText (K.taken out.old) (K.taken out.new) (K.faults out.old) (K.faults out.new)
            (journal_lines entry_text (take segment_room self.old.entries)) result }
        ensures short { OnErr result (IsTakenShort (K.taken out.old) (K.taken out.new) (journal_lines entry_text (take segment_room self.old.entries))) }
        ensures left { MatchResult result
            (λ _. self.new.entries ≡ drop segment_room self.old.entries)
            (λ _. self.new.entries ≡ self.old.entries) }
    {
        match self.full.front() {
            Some(first) => {
                spell_entries(out, first.entries.as_slice())?;
                self.full.pop_front();
                self.count -= SEGMENT as u64;
            }
            None => {
                spell_entries(out, self.last.as_slice())?;
                self.last = Vec::new(*self.last.allocator());
                self.free = 0;
                self.count = 0;
            }
        }
        Ok(())
    }

    /// Takes a segment and the place in the directory of the one before it.
    fn open_segment(&mut self) -> Result<(), AllocError>
        requires { self.old.room ≡ 0 }
        ensures opened { OnOk result (1 ≤ self.new.room) }
        ensures same { self.new.entries ≡ self.old.entries }
        ensures err { OnErr result (self.new ≡ self.old) }
    {
        if self.count > u64::MAX - SEGMENT as u64 {
            return Err(AllocError);
        }
        self.full.reserve(1)?;
        let next = Vec::with_capacity(*self.last.allocator(), SEGMENT)?;
        let entries = mem::replace(&mut self.last, next);
        put_behind(&mut self.full, entries);
        self.free = SEGMENT;
        Ok(())
    }
}

impl Journal for SegmentJournal {
    ghost use Rattle.std.specs.Prelude.{false, Some};

    ghost told = { λ j. Some j.entries };

    ghost faults = { λ _. 0 };

    ghost torn = { λ _. false };

    ghost room = { λ j. j.room };

    /// Takes a segment where the number of entries is a multiple of 1,024 and none is held for the next one; else takes no memory.
    fn reserve(&mut self) -> Result<(), AllocError>
        ensures reserved { OnOk result (1 ≤ self.new.room) }
        ensures same { self.new.entries ≡ self.old.entries }
        ensures held { 1 ≤ self.old.room → IsOk result × (self.new ≡ self.old) }
        ensures inside { length self.old.entries % segment_room ≢ 0 → IsOk result × (self.new ≡ self.old) }
        ensures err { OnErr result (self.new ≡ self.old) }
    {
        if self.free > 0 {
            return Ok(());
        }
        self.open_segment()
    }

    fn append(&mut self, entry: Entry) -> Result<(), Failed>
        requires reserved { 1 ≤ self.old.room }
        ensures entered { self.new.entries ≡ self.old.entries ++ entry ∷ [] }
        ensures done { IsOk result }
    {
        self.last.push_reserved(entry);
        self.free -= 1;
        self.count += 1;
        Ok(())
    }
}

/// Puts entries behind segments, where there are any; takes no memory.
fn put_behind(full: &mut VecDeque<Segment>, entries: Vec<Entry>)
    requires room { deque_len full.old < deque_capacity full.old }
    ensures chained { chained full.new.items ≡ chained full.old.items ++ entries.items }
    ensures whole { AllByRecursion IsFull full.old.items → (0 < length entries.items → IsFull entries.items) → AllByRecursion IsFull full.new.items }
{
    if entries.is_empty() {
        return;
    }
    full.push_back_reserved(Segment { entries });
}
