//! A sink in memory.

ghost use Rattle.std.specs.Prelude.{◌≡◌, ◌-◌, ◌^◌, ◌<◌, [], Some, take, length, min, MatchResult, IfOk, IsErr, IsTrue};
ghost use Rattle.streams.specs.Cause.{HasCause};
ghost use Rattle.streams.specs.Content.{HasWritten};
ghost use Rattle.streams.specs.Memory.{is_listed, after_write, after_failed_write};

use super::streams::{Failed, Sink};
use std::alloc::Global;
use std::marker::Model;

/// A sink that keeps its bytes in memory. It fails at the calls whose numbers it was given, counted from 0, and
/// where it finds no memory.
#[derive(Drop)]
pub struct MemSink {
    /// The bytes that were taken.
    content: Vec<u8>,
    /// The most bytes that one write takes, at least 1.
    piece: usize,
    /// The numbers of the writes that fail.
    fails: Vec<u64>,
    /// The number of the next write; it stands still at its type's end.
    call: u64,
    /// How many writes failed; it stands still at its type's end.
    faults: u64,
    /// How many writes found no memory; it stands still at its type's end.
    wants: u64,
}

impl Model for MemSink {
    ghost use Rattle.std.specs.Prelude.{◌<◌};
    ghost use Rattle.streams.specs.Memory.{SinkState};

    ghost Value = { SinkState };

    ghost view = { λ s. record {
      taken = s.content.items;
      piece = s.piece;
      fails = s.fails.items;
      call = s.call;
      faults = s.faults;
      wants = s.wants;
    } };

    ghost invariant = { λ s. 0 < s.piece };
}

impl MemSink {
    /// An empty sink, which takes each piece whole.
    pub fn new(alloc: Global, fails: Vec<u64>) -> Self
        ensures { result ≡ record {
          taken = [];
          piece = 2 ^ 64 - 1;
          fails = fails.items;
          call = 0;
          faults = 0;
          wants = 0;
        } }
    {
        Self::in_pieces(alloc, fails, usize::MAX)
    }

    /// An empty sink, which takes at most `piece` bytes at a time.
    pub fn in_pieces(alloc: Global, fails: Vec<u64>, piece: usize) -> Self
        requires { 0 < piece }
        ensures { result ≡ record {
          taken = [];
          piece = piece;
          fails = fails.items;
          call = 0;
          faults = 0;
          wants = 0;
        } }
    {
        MemSink {
            content: Vec::new(alloc),
            piece,
            fails,
            call: 0,
            faults: 0,
            wants: 0,
        }
    }

    /// The bytes that were taken.
    pub fn bytes(&self) -> &[u8]
        ensures { result.now ≡ self.now.taken }
    {
        self.content.as_slice()
    }

    /// Gives the bytes that were taken; takes no memory.
    pub fn into_bytes(self) -> Vec<u8>
        ensures { result.items ≡ self.taken }
    {
        self.content
    }

    /// How many writes failed.
    pub fn faults(&self) -> u64
        ensures { result ≡ self.now.faults }
    {
        self.faults
    }

    /// How many writes found no memory.
    pub fn wants(&self) -> u64
        ensures { result ≡ self.now.wants }
    {
        self.wants
    }
}

impl Sink for MemSink {
    ghost taken = { λ s. Some s.taken };

    ghost faults = { λ s. s.faults };

    fn write(&mut self, bytes: &[u8]) -> Result<usize, Failed>
        ensures told { MatchResult result
            (λ count. HasWritten (Some self.old.taken) (Some self.new.taken) bytes.now count)
            (λ _. Some self.new.taken ≡ Some self.old.taken) }
        ensures cause { HasCause self.old.faults self.new.faults result }

        // It fails where it was told to; elsewhere it takes what a piece has room for, or finds no memory.
        ensures fails { IsTrue (is_listed self.old.fails self.old.call) → IsErr result }
        ensures count { IfOk result (λ count. count ≡ min (length bytes.now) self.old.piece) }
        ensures after { MatchResult result
            (λ count. self.new ≡ after_write self.old (take count bytes.now))
            (λ _. self.new ≡ after_failed_write self.old) }
    {
        let call = self.call;
        self.call = call.saturating_add(1);
        if self.fails.as_slice().contains(&call) {
            self.faults = self.faults.saturating_add(1);
            return Err(Failed);
        }
        let count = bytes.len().min(self.piece);
        match self.content.extend_from_slice(&bytes[..count]) {
            Ok(()) => Ok(count),
            Err(_) => {
                self.faults = self.faults.saturating_add(1);
                self.wants = self.wants.saturating_add(1);
                Err(Failed)
            }
        }
    }
}
