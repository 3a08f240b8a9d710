//! A journal whose lines go into a file that was made for them.

ghost use Rattle.std.specs.Prelude.{◌≡◌, ◌≢◌, ◌≤◌, [], List, Option, None, Some, true, false, IfOk, IfErr, Err, MatchResult};
ghost use Rattle.streams.specs.Cause.{Rose, next_if_faulty};
ghost use Rattle.streams.specs.Files.{File};
ghost use Rattle.streams.specs.Making.{told_with_file, IsThere};
ghost use Rattle.journal_text.specs.JournalStates.{appended_count};
ghost use Rattle.port_serving.specs.FileJournals.{IsUnused, KeepsLines, KeepsJournal};
ghost use Rattle.port_serving.specs.Steps.{BeginsJournal, OpensJournal, EndsOpening};

use crate::fault::PortFault;
use call_rules::{Entry, Journal};
use journal_text::{NoJournal, SpoolJournal};
use std::alloc::{AllocError, Global};
use std::marker::Model;
use streams::{Failed, Files, Sink};

/// A journal over a sink that had taken nothing when it was handed in.
#[derive(Drop)]
pub(crate) struct FileJournal<K: Sink> {
    journal: SpoolJournal<K>,
}

impl<K: Sink> Model for FileJournal<K> {
    ghost use Rattle.journal_text.specs.Spooled.{SpooledEntries, spooled_entries_code};
    ghost use Rattle.port_serving.specs.FileJournals.{IsUnused};

    ghost Value = { SpooledEntries K };

    ghost coded = { spooled_entries_code K.code };

    ghost view = { λ j. j.journal };

    ghost invariant = { λ j. IsUnused (K.taken j.journal.opening) };
}

impl<K: Sink> FileJournal<K> {
    /// A journal without entries over a sink that has taken nothing.
    fn new(alloc: Global, sink: K) -> Result<Self, NoJournal<K>>
        requires unused { IsUnused (K.taken sink) }
        ensures ok { IfOk result (λ journal. journal ≡ record { sink = sink; opening = sink; held = []; entries = []; unwritten = None; failed = false }) }
        ensures err { IfErr result (λ no. no.0 ≡ sink) }
    {
        match SpoolJournal::new(alloc, sink) {
            Ok(journal) => Ok(FileJournal { journal }),
            Err(no) => Err(no),
        }
    }

    /// How many entries were appended; it stands still at 2^64 - 1.
    pub(crate) fn count(&self) -> u64
        ensures { result ≡ appended_count self.now.entries }
    {
        self.journal.count()
    }

    /// Writes what is held, unless a write has failed before; says whether lines are lost.
    pub(crate) fn finish(&mut self) -> bool
        ensures failed { self.new.failed ≡ result }
        ensures torn { self.old.failed ≡ true → result ≡ true }
        ensures empty { result ≡ false → self.new.held ≡ [] }
        ensures entries { self.new.entries ≡ self.old.entries }
        ensures unwritten { self.old.failed ≡ false → self.new.unwritten ≡ None }
        ensures later { K.faults self.old.sink ≤ K.faults self.new.sink }
        ensures rose { self.old.failed ≡ false → result ≡ true → Rose (K.faults self.old.sink) (K.faults self.new.sink) }
        ensures kept { result ≡ false → K.faults self.new.sink ≡ K.faults self.old.sink }
    {
        if self.journal.failed() {
            return true;
        }
        self.journal.finish().is_err()
    }

    /// Gives the sink; takes no memory. Unless lines are lost, the sink has taken the lines of the entries and nothing else, where it tells.
    fn into_sink(self) -> K
        requires finished { self.failed ≡ false → self.held ≡ [] }
        ensures sink { result ≡ self.sink }
        ensures lines { KeepsLines (K.taken result) self.entries self.unwritten self.failed }
    {
        self.journal.into_sink()
    }
}

impl<K: Sink> Journal for FileJournal<K> {
    ghost use Rattle.std.specs.Prelude.{Some};

    ghost told = { λ j. Some j.entries };

    ghost faults = { λ j. K.faults j.sink };

    ghost torn = { λ j. j.failed };

    ghost room = { λ _. 1 };

    fn reserve(&mut self) -> Result<(), AllocError> {
        self.journal.reserve()
    }

    fn append(&mut self, entry: Entry) -> Result<(), Failed> {
        self.journal.append(entry)
    }
}

/// Opens a journal over a new file of this name.
pub(crate) fn open_journal<F: Files>(
    alloc: Global,
    files: &mut F,
    name: &str,
) -> Result<FileJournal<F::Out>, PortFault>
    ensures opened { MatchResult result
        (λ journal. OpensJournal (F.files files.old) (F.files files.new) name.now journal.entries journal.held journal.failed (F.Out.faults journal.sink))
        (λ fault. EndsOpening fault (F.files files.old) (F.files files.new) name.now) }
    ensures sinks { F.sink_faults files.new ≡ F.sink_faults files.old }
    ensures file_fault { result ≡ Err PortFault.FileFault → Rose (F.faults files.old) (F.faults files.new) }
    ensures kept { result ≢ Err PortFault.FileFault → F.faults files.new ≡ F.faults files.old }
{
    match files.create(alloc, name) {
        Ok(sink) => begin_journal(alloc, files, name, sink),
        Err(Failed) => Err(PortFault::FileFault),
    }
}

/// Begins a journal over the sink of a file of this name. Where there is no memory, the sink is handed back.
fn begin_journal<F: Files>(
    alloc: Global,
    files: &mut F,
    name: &str,
    sink: F::Out,
) -> Result<FileJournal<F::Out>, PortFault>
    requires there { IsThere (F.files files.old) name.now }
    requires unused { IsUnused (F.Out.taken sink) }
    requires faultless { F.Out.faults sink ≡ 0 }
    ensures begun { MatchResult result
        (λ journal. BeginsJournal (F.files files.old) (F.files files.new) journal.entries journal.held journal.failed (F.Out.faults journal.sink))
        (λ _. F.files files.new ≡ told_with_file (F.files files.old) name.now (F.Out.taken sink)) }
    ensures sinks { F.sink_faults files.new ≡ F.sink_faults files.old }
    ensures faults { IfErr result (λ fault. fault ≡ PortFault.NoMemory) }
    ensures kept { F.faults files.new ≡ F.faults files.old }
{
    match FileJournal::new(alloc, sink) {
        Ok(journal) => Ok(journal),
        Err(no) => {
            files.take_back(name, no.0);
            Err(PortFault::NoMemory)
        }
    }
}

/// Hands the sink of a journal, of which nothing is held, back to the files; takes no memory.
pub(crate) fn close_journal<F: Files>(files: &mut F, name: &str, journal: FileJournal<F::Out>)
    requires there { IsThere (F.files files.old) name.now }
    requires finished { journal.failed ≡ false → journal.held ≡ [] }
    ensures kept { (before : Option (List File)) → F.files files.old ≡ told_with_file before name.now (Some [])
        → KeepsJournal before (F.files files.new) name.now journal.entries journal.unwritten journal.failed }
    ensures sinks { F.sink_faults files.new ≡ next_if_faulty (F.Out.faults journal.sink) (F.sink_faults files.old) }
    ensures same { F.faults files.new ≡ F.faults files.old }
{
    files.take_back(name, journal.into_sink());
}
