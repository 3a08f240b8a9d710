//! A vector as a sink.
ghost use Rattle.std.specs.Prelude.{◌≡◌, take, IsErr, IsOk, MatchResult, OnErr, OnOk};

use std::alloc::AllocError;
use std::mem;
use streams::{Failed, Sink};

/// A vector as a sink: what is written is appended to it, and a write fails where there is no memory for it.
#[derive(Drop)]
pub struct VecSink {
    /// What the vector held, and what was written since.
    pub content: Vec<u8>,
    /// How many writes found no memory; it stands still at its type's end.
    pub wants: u64,
}

impl VecSink {
    /// A sink that appends to what this vector holds. The vector is left empty; takes no memory.
    pub fn take_from(into: &mut Vec<u8>) -> Self
        ensures { result.content.items ≡ into.old.items }
    {
        let empty = Vec::new(*into.allocator());
        VecSink {
            content: mem::replace(into, empty),
            wants: 0,
        }
    }

    /// Gives the vector back, and says how the writing went: a write fails for want of memory alone, and then the vector gets no
    /// more than its first `start` bytes.
    pub fn give_back(
        self,
        into: &mut Vec<u8>,
        start: usize,
        written: Result<(), Failed>,
    ) -> Result<(), AllocError>
        ensures ok { OnOk result (into.new.items ≡ self.content.items) }
        ensures err { OnErr result (into.new.items ≡ take start self.content.items) }
        ensures went { MatchResult result (λ _. IsOk written) (λ _. IsErr written) }
    {
        *into = self.content;
        match written {
            Ok(()) => Ok(()),
            Err(Failed) => {
                into.truncate(start);
                Err(AllocError)
            }
        }
    }
}

impl Sink for VecSink {
    ghost use Rattle.std.specs.Prelude.{Some};

    ghost taken = { λ s. Some s.content.items };

    ghost faults = { λ s. s.wants };

    #[inline(always)]
    fn write(&mut self, bytes: &[u8]) -> Result<usize, Failed> {
        if self.content.extend_from_slice(bytes).is_err() {
            self.wants = self.wants.saturating_add(1);
            return Err(Failed);
        }
        Ok(bytes.len())
    }
}
