//! A source in memory.

ghost use Rattle.std.specs.Prelude.{◌≡◌, ◌<◌, ◌↔◌, ◌-◌, ◌^◌, [], ◌++◌, Some, length, take, drop, min, MatchResult, IfOk, IsErr, IsTrue};
ghost use Rattle.streams.specs.Cause.{HasCause};
ghost use Rattle.streams.specs.Content.{HasRead};
ghost use Rattle.streams.specs.Memory.{is_listed, after_read, after_failed_read};

use super::streams::{Failed, Source};
use std::marker::Model;

/// A source over bytes in memory. It fails at the calls whose numbers it was given, counted from 0.
#[derive(Drop)]
pub struct MemSource {
    /// All bytes, given or not.
    content: Vec<u8>,
    /// How many bytes were given, at most all.
    at: usize,
    /// The most bytes that one read gives, at least 1.
    piece: usize,
    /// The numbers of the reads that fail.
    fails: Vec<u64>,
    /// The number of the next read; it stands still at its type's end.
    call: u64,
    /// How many reads failed; it stands still at its type's end.
    faults: u64,
}

impl Model for MemSource {
    ghost use Rattle.std.specs.Prelude.{◌<◌, ◌≤◌, take, drop, length};
    ghost use Rattle.streams.specs.Memory.{SourceState};

    ghost Value = { SourceState };

    ghost view = { λ s. record {
      given = take s.at s.content.items;
      left = drop s.at s.content.items;
      piece = s.piece;
      fails = s.fails.items;
      call = s.call;
      faults = s.faults;
    } };

    ghost invariant = { λ s. (s.at ≤ length s.content.items) × (0 < s.piece) };
}

impl MemSource {
    /// A source of these bytes, which gives as many at a time as there is room for.
    pub fn new(content: Vec<u8>, fails: Vec<u64>) -> Self
        ensures { result ≡ record {
          given = [];
          left = content.items;
          piece = 2 ^ 64 - 1;
          fails = fails.items;
          call = 0;
          faults = 0;
        } }
    {
        Self::in_pieces(content, fails, usize::MAX)
    }

    /// A source of these bytes, which gives at most `piece` at a time.
    pub fn in_pieces(content: Vec<u8>, fails: Vec<u64>, piece: usize) -> Self
        requires { 0 < piece }
        ensures { result ≡ record {
          given = [];
          left = content.items;
          piece = piece;
          fails = fails.items;
          call = 0;
          faults = 0;
        } }
    {
        MemSource {
            content,
            at: 0,
            piece,
            fails,
            call: 0,
            faults: 0,
        }
    }

    /// The bytes that aren't read yet.
    pub fn left(&self) -> &[u8]
        ensures { result.now ≡ self.now.left }
    {
        &self.content.as_slice()[self.at..]
    }

    /// How many reads failed.
    pub fn faults(&self) -> u64
        ensures { result ≡ self.now.faults }
    {
        self.faults
    }
}

impl Source for MemSource {
    ghost given = { λ s. Some s.given };

    ghost left = { λ s. Some s.left };

    ghost faults = { λ s. s.faults };

    fn read(&mut self, into: &mut [u8]) -> Result<usize, Failed>
        ensures moved { MatchResult result
            (λ count. HasRead (Some self.old.given) (Some self.new.given)
            (Some self.old.left) (Some self.new.left) into.new count)
            (λ _. (Some self.new.given ≡ Some self.old.given) × (Some self.new.left ≡ Some self.old.left)) }
        ensures cause { HasCause self.old.faults self.new.faults result }

        // It fails exactly where it was told to, and otherwise gives what there is room for.
        ensures fails { IsErr result ↔ IsTrue (is_listed self.old.fails self.old.call) }
        ensures count { IfOk result
            (λ count. count ≡ min (min (length self.old.left) (length into.old)) self.old.piece) }
        ensures after { MatchResult result
            (λ count. self.new ≡ after_read self.old count)
            (λ _. self.new ≡ after_failed_read self.old) }
    {
        let call = self.call;
        self.call = call.saturating_add(1);
        if self.fails.as_slice().contains(&call) {
            self.faults = self.faults.saturating_add(1);
            return Err(Failed);
        }
        let (_, left) = self.content.as_slice().split_at(self.at);
        let count = fill(into, left, self.piece);
        self.at += count;
        Ok(count)
    }
}

/// Copies the front of `left` to the front of `into`, at most `piece` bytes, and answers how many.
fn fill(into: &mut [u8], left: &[u8], piece: usize) -> usize
    ensures count { result ≡ min (min (length left.now) (length into.old)) piece }
    ensures copied { into.new ≡ take result left.now ++ drop result into.old }
{
    let count = left.len().min(into.len()).min(piece);
    into[..count].copy_from_slice(&left[..count]);
    count
}
