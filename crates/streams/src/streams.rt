//! The traits of what is read and what is written.

ghost use Rattle.std.specs.Prelude.{◌≡◌, ℕ, List, Option, MatchResult, OnErr};
ghost use Rattle.streams.specs.Cause.{HasCause};
ghost use Rattle.streams.specs.Content.{HasRead, HasWritten, told_more};
ghost use Rattle.streams.specs.Taken.{IsTakenInPart};

use thiserror::Error;

/// The call failed, and the count of faults of the object rose.
#[derive(Clone, Copy, Debug, PartialEq, Eq, Error)]
#[error("the bytes can't be read or written")]
pub struct Failed;

/// Bytes that come in.
pub trait Source {
    // The bytes that reads have given, where they are told.
    ghost given: { Self → Option (List ℕ) };
    // The bytes that reads will still give, where they are told.
    ghost left: { Self → Option (List ℕ) };
    // How many faults were counted; the count stands still at 2^64 - 1.
    ghost faults: { Self → ℕ };

    /// Puts bytes at the front of `into` and answers how many. 0 for an `into` with room is the end of the input.
    /// What stands in `into` behind them, or after `Failed`, is left open.
    fn read(&mut self, into: &mut [u8]) -> Result<usize, Failed>
        ensures moved { MatchResult result
            (λ count. HasRead (given self.old) (given self.new) (left self.old) (left self.new) into.new count)
            (λ _. (given self.new ≡ given self.old) × (left self.new ≡ left self.old)) }
        ensures cause { HasCause (faults self.old) (faults self.new) result };
}

/// Where bytes go.
pub trait Sink {
    // The bytes that writes have taken, where they are told.
    ghost taken: { Self → Option (List ℕ) };
    // How many faults were counted; the count stands still at 2^64 - 1.
    ghost faults: { Self → ℕ };

    /// Takes bytes off the front of `bytes` and answers how many, at least one where there are any.
    fn write(&mut self, bytes: &[u8]) -> Result<usize, Failed>
        ensures told { MatchResult result
            (λ count. HasWritten (taken self.old) (taken self.new) bytes.now count)
            (λ _. taken self.new ≡ taken self.old) }
        ensures cause { HasCause (faults self.old) (faults self.new) result };
}

/// Hands bytes to the sink until it took them all.
#[tactic(auto, using(crate::proofs::Taking::taking))]
#[inline(always)]
pub fn write_all<K: Sink>(out: &mut K, bytes: &[u8]) -> Result<(), Failed>
    ensures told { MatchResult result
        (λ _. K.taken out.new ≡ told_more (K.taken out.old) bytes.now)
        (λ _. IsTakenInPart (K.taken out.old) (K.taken out.new) bytes.now) }
    ensures cause { HasCause (K.faults out.old) (K.faults out.new) result }
{
    let mut rest = bytes;
    'pieces: while !rest.is_empty() {
        let count = out.write(rest)?;
        let (_, behind) = rest.split_at(count);
        rest = behind;
    }
    Ok(())
}
