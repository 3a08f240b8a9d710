//! The trait of a connection that was dialled.

ghost use Rattle.std.specs.Prelude.{◌≡◌};
ghost use Rattle.outside.specs.Pipes.{PipeState, Receives, Sends};

use streams::{Failed, Sink, Source};

/// A connection that was dialled: bytes go out on it, and bytes come back. That a read leaves what was written, and a write what was read, neither `Source` nor `Sink`
/// can say alone; so there is a call of its own for each, which who talks on a pipe uses.
pub trait Pipe: Source + Sink + Drop {
    // What it is to those who use it.
    ghost state: { Self → PipeState };

    /// Reads as `Source::read` does, and leaves what was written.
    fn receive(&mut self, into: &mut [u8]) -> Result<usize, Failed>
        ensures receives { Receives into.new (state self.old) (state self.new) result };

    /// Writes as `Sink::write` does, and leaves what was read.
    fn send(&mut self, bytes: &[u8]) -> Result<usize, Failed>
        ensures sends { Sends bytes.now (state self.old) (state self.new) result };

    // As a source it gives what is read of it.
    ghost reads: { (p : Self) → ((state p).given ≡ Self.Source.given p) × ((state p).read_faults ≡ Self.Source.faults p) };

    // As a sink it takes what is written to it.
    ghost writes: { (p : Self) → ((state p).written ≡ Self.Sink.taken p) × ((state p).write_faults ≡ Self.Sink.faults p) };
}
