//! Calls on links that are to fail, by their numbers.

ghost use Rattle.std.specs.Prelude.{◌≡◌, IfOk};
ghost use Rattle.script_links.specs.Failing.{uncalled, numbers_given, fails_next, read_fails, write_fails, after_counting, after_asking, after_reading, after_writing};

use lists::Listed;
use std::alloc::{AllocError, Global};
use std::marker::Model;

/// Counts calls of one kind, from 0, and says which of them are to fail.
#[derive(Drop)]
pub struct CallList {
    /// The numbers of those that are to fail.
    fails: Vec<u64>,
    /// The number of the next one; it stands still at its type's end.
    next: u64,
}

impl Model for CallList {
    ghost use Rattle.script_links.specs.Failing.{CountedCalls};

    ghost Value = { CountedCalls };

    ghost view = { λ l. record { fails = l.fails.items; next = l.next } };
}

impl CallList {
    /// No call was made yet; those of these numbers are to fail.
    pub fn new(fails: Vec<u64>) -> Self
        ensures { result ≡ uncalled fails.items }
    {
        CallList { fails, next: 0 }
    }

    /// No call was made yet; those of these numbers are to fail, and none where there is no list.
    pub fn copied(alloc: Global, fails: &Option<Listed<u64>>) -> Result<Self, AllocError>
        ensures { IfOk result (λ calls. calls ≡ uncalled (numbers_given fails.now)) }
    {
        let fails = match fails {
            Some(fails) => Vec::from_slice(alloc, fails.as_slice())?,
            None => Vec::new(alloc),
        };
        Ok(CallList::new(fails))
    }

    /// Counts a call, and says whether it is to fail.
    pub fn count(&mut self) -> bool
        ensures fails { result ≡ fails_next self.old }
        ensures after { self.new ≡ after_counting self.old }
    {
        let call = self.next;
        self.next = call.saturating_add(1);
        self.fails.as_slice().contains(&call)
    }
}

/// Which calls on links are to fail.
#[derive(Drop)]
pub struct FailingCalls {
    /// Those that ask what is next.
    pub nexts: CallList,
    /// The connection whose reads and writes are counted.
    pub conn: u32,
    /// Reads of it.
    pub reads: CallList,
    /// Writes on it.
    pub writes: CallList,
}

impl Model for FailingCalls {
    ghost use Rattle.script_links.specs.Failing.{FaultPlan};

    ghost Value = { FaultPlan };

    ghost view = { λ f. record { nexts = f.nexts; conn = f.conn; reads = f.reads; writes = f.writes } };
}

impl FailingCalls {
    /// Links are asked what is next: counts that, and says whether it is to fail.
    pub fn ask(&mut self) -> bool
        ensures fails { result ≡ fails_next self.old.nexts }
        ensures after { self.new ≡ after_asking self.old }
    {
        self.nexts.count()
    }

    /// A read of connection `c`: counts it where reads of that one are counted, and says whether it is to fail.
    pub fn read(&mut self, c: u32) -> bool
        ensures fails { result ≡ read_fails c self.old }
        ensures after { self.new ≡ after_reading c self.old }
    {
        c == self.conn && self.reads.count()
    }

    /// A write on connection `c`: the same.
    pub fn write(&mut self, c: u32) -> bool
        ensures fails { result ≡ write_fails c self.old }
        ensures after { self.new ≡ after_writing c self.old }
    {
        c == self.conn && self.writes.count()
    }
}
