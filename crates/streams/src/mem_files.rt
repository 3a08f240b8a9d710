//! Files in memory.

ghost use Rattle.std.specs.Prelude.{◌≡◌, ◌≤◌, ◌&&◌, Some, None, [], map, string_bytes, IfOk, IsErr, MatchOption, MatchResult, IsTrue, if◌then◌else◌};
ghost use Rattle.streams.specs.Cause.{Rose, HasCause, next_count, next_if_faulty};
ghost use Rattle.streams.specs.Files.{IsWholeFile, HasFileCause, content_of, fits, has_failed};
ghost use Rattle.streams.specs.Making.{IsThere, MakesFile, with_file, told_with_file};
ghost use Rattle.streams.specs.Memory.{is_listed, after_file, after_failed_file, after_made_file, after_unmade_file, after_sink, empty_sink};
ghost use Rattle.streams.specs.Places.{IsFirstAt, PutsFile};

use super::files::{FileFail, Files};
use super::mem_sink::MemSink;
use super::streams::Failed;
use std::alloc::{AllocError, Global};
use std::marker::Model;

/// Files in memory, the first of a name being the file of that name. The calls to read or to make a file whose numbers were given, counted from 0, fail to
/// read a file that could be read, and make none; the others fail for want of memory alone.
#[derive(Drop)]
pub struct MemFiles {
    /// The files, each a name and its bytes.
    files: Vec<(String, Vec<u8>)>,
    /// The numbers of the calls that fail.
    fails: Vec<u64>,
    /// The numbers of the writes that fail on each sink that is made.
    sink_fails: Vec<u64>,
    /// The number of the next call; it stands still at its type's end.
    call: u64,
    /// How many calls failed; it stands still at its type's end.
    faults: u64,
    /// How many calls to make a file found no memory; it stands still at its type's end.
    wants: u64,
    /// How many sinks came back with a fault; it stands still at its type's end.
    sink_faults: u64,
}

impl Model for MemFiles {
    ghost use Rattle.std.specs.Prelude.{map, string_bytes};
    ghost use Rattle.streams.specs.Memory.{FilesState};

    ghost Value = { FilesState };

    ghost view = { λ s. record {
      files = map (λ file. record { name = string_bytes file.0; bytes = file.1.items }) s.files.items;
      fails = s.fails.items;
      sink_fails = s.sink_fails.items;
      call = s.call;
      faults = s.faults;
      wants = s.wants;
      sink_faults = s.sink_faults;
    } };
}

impl MemFiles {
    /// These files, with the numbers of the calls that are to fail.
    pub fn new(files: Vec<(String, Vec<u8>)>, fails: Vec<u64>) -> Self
        ensures { result ≡ record {
          files = map (λ file. record { name = string_bytes file.0; bytes = file.1.items }) files.items;
          fails = fails.items;
          sink_fails = [];
          call = 0;
          faults = 0;
          wants = 0;
          sink_faults = 0;
        } }
    {
        let none = Vec::new(*fails.allocator());
        MemFiles {
            files,
            fails,
            sink_fails: none,
            call: 0,
            faults: 0,
            wants: 0,
            sink_faults: 0,
        }
    }

    /// The same files, with the numbers of the writes that are to fail on each sink that is made.
    pub fn with_sink_fails(self, fails: Vec<u64>) -> Self
        ensures { result ≡ record self { sink_fails = fails.items } }
    {
        MemFiles {
            sink_fails: fails,
            ..self
        }
    }

    /// How many calls failed.
    pub fn faults(&self) -> u64
        ensures { result ≡ self.now.faults }
    {
        self.faults
    }

    /// How many calls to make a file found no memory.
    pub fn wants(&self) -> u64
        ensures { result ≡ self.now.wants }
    {
        self.wants
    }

    /// How many sinks came back with a fault.
    pub fn sink_faults(&self) -> u64
        ensures { result ≡ self.now.sink_faults }
    {
        self.sink_faults
    }

    /// Counts one more call, and answers whether it is one that is to fail.
    fn count_call(&mut self) -> bool
        ensures fails { result ≡ is_listed self.old.fails self.old.call }
        ensures kept { self.new.faults ≡ self.old.faults }
        ensures after { self.new ≡ after_file self.old }
    {
        let call = self.call;
        self.call = call.saturating_add(1);
        self.fails.as_slice().contains(&call)
    }

    /// Counts one more call that failed.
    fn count_fault(&mut self)
        ensures later { self.old.faults ≤ self.new.faults }
        ensures rose { Rose self.old.faults self.new.faults }
        ensures after { self.new ≡ record self.old { faults = next_count self.old.faults } }
    {
        self.faults = self.faults.saturating_add(1);
    }

    /// What the first file of this name holds.
    fn find(&self, name: &str) -> Option<&[u8]>
        ensures { MatchOption result (content_of self.now.files name.now ≡ None) (λ bytes. content_of self.now.files name.now ≡ Some bytes.now) }
    {
        'files: for (held, bytes) in self.files.iter() {
            if held.as_str() == name {
                return Some(bytes.as_slice());
            }
        }
        None
    }

    /// Where the first file of this name stands.
    fn place(&self, name: &str) -> Option<usize>
        ensures { MatchOption result (content_of self.now.files name.now ≡ None) (λ at. IsFirstAt self.now.files name.now at) }
    {
        let mut at = 0usize;
        'files: while at < self.files.len() {
            if self.files[at].0.as_str() == name {
                return Some(at);
            }
            at += 1;
        }
        None
    }

    /// Gives the first file of this name these bytes, and answers whether there is one; takes no memory.
    fn put(&mut self, name: &str, bytes: Vec<u8>) -> bool
        ensures { PutsFile self.old self.new name.now bytes.items result }
    {
        let Some(at) = self.place(name) else {
            return false;
        };
        self.files[at].1 = bytes;
        true
    }

    /// Empties the first file of this name, or puts an empty one behind the others.
    fn hold(&mut self, alloc: Global, name: &str) -> Result<(), AllocError>
        ensures { MatchResult result
            (λ _. self.new ≡ record self.old { files = with_file self.old.files name.now [] })
            (λ _. self.new ≡ self.old) }
    {
        if self.put(name, Vec::new(alloc)) {
            return Ok(());
        }
        let held = String::from_str(alloc, name)?;
        self.files.push((held, Vec::new(alloc)))?;
        Ok(())
    }

    /// Makes the file of this name, and its sink, where there is memory for both.
    fn make(&mut self, alloc: Global, name: &str) -> Result<MemSink, AllocError>
        ensures made { MatchResult result
            (λ _. self.new ≡ record self.old { files = with_file self.old.files name.now [] })
            (λ _. self.new ≡ self.old) }
        ensures out { IfOk result (λ out. out ≡ empty_sink self.old.sink_fails) }
    {
        let fails = self.sink_fails.clone()?;
        self.hold(alloc, name)?;
        Ok(MemSink::new(alloc, fails))
    }
}

impl Files for MemFiles {
    type Out = MemSink;

    ghost files = { λ s. Some s.files };

    ghost faults = { λ s. s.faults };

    ghost sink_faults = { λ s. s.sink_faults };

    fn read_whole(&mut self, alloc: Global, name: &str, limit: usize) -> Result<Vec<u8>, FileFail>
        ensures read { IsWholeFile (Some self.old.files) name.now limit (λ bytes. bytes.items) result }
        ensures same { Some self.new.files ≡ Some self.old.files }
        ensures sinks { self.new.sink_faults ≡ self.old.sink_faults }
        ensures cause { HasFileCause self.old.faults self.new.faults result }

        // It fails exactly where it was told to, at a file that is there and isn't too long.
        ensures fails { has_failed result ≡ (is_listed self.old.fails self.old.call && fits limit (content_of self.old.files name.now)) }
        ensures after { self.new ≡ (if has_failed result then after_failed_file self.old else after_file self.old) }
    {
        let fails = self.count_call();
        let Some(bytes) = self.find(name) else {
            return Err(FileFail::Absent);
        };
        if bytes.len() > limit {
            return Err(FileFail::TooLong);
        }
        if fails {
            self.count_fault();
            return Err(FileFail::Failed);
        }
        Ok(Vec::from_slice(alloc, bytes)?)
    }

    #[tactic(auto, using(crate::proofs::Placing::file_there))]
    fn create(&mut self, alloc: Global, name: &str) -> Result<MemSink, Failed>
        ensures made { MatchResult result
            (λ out. MakesFile (Some self.old.files) (Some self.new.files) name.now (Some out.taken) out.faults)
            (λ _. Some self.new.files ≡ Some self.old.files) }
        ensures sinks { self.new.sink_faults ≡ self.old.sink_faults }
        ensures cause { HasCause self.old.faults self.new.faults result }

        // It fails where it was told to; elsewhere it makes the file and a sink that is to fail at the writes that were named, or finds no memory.
        ensures fails { IsTrue (is_listed self.old.fails self.old.call) → IsErr result }
        ensures out { IfOk result (λ out. out ≡ empty_sink self.old.sink_fails) }
        ensures after { MatchResult result
            (λ _. self.new ≡ after_made_file self.old name.now)
            (λ _. self.new ≡ after_unmade_file self.old) }
    {
        if self.count_call() {
            self.count_fault();
            return Err(Failed);
        }
        match self.make(alloc, name) {
            Ok(out) => Ok(out),
            Err(_) => {
                self.count_fault();
                self.wants = self.wants.saturating_add(1);
                Err(Failed)
            }
        }
    }

    fn take_back(&mut self, name: &str, out: MemSink)
        requires { IsThere (Some self.old.files) name.now }
        ensures files { Some self.new.files ≡ told_with_file (Some self.old.files) name.now (Some out.taken) }
        ensures sinks { self.new.sink_faults ≡ next_if_faulty out.faults self.old.sink_faults }
        ensures same { self.new.faults ≡ self.old.faults }
        ensures after { self.new ≡ after_sink self.old name.now out }
    {
        let faults = out.faults();
        let _ = self.put(name, out.into_bytes());
        if faults > 0 {
            self.sink_faults = self.sink_faults.saturating_add(1);
        }
    }
}
