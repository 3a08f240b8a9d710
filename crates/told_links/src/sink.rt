//! A sink over another sink.

ghost use Rattle.std.specs.Prelude.{◌≡◌, [], MatchResult};
ghost use Rattle.streams.specs.Cause.{HasCause};
ghost use Rattle.streams.specs.Content.{HasWritten};
ghost use Rattle.told_links.specs.Moved.{moved_after};

use crate::noting::note_bytes;
use lists::{Appended, NotedBytes};
use std::marker::Model;
use std::snapshot::Snapshot;
use streams::{Failed, Sink};

/// A sink that passes each write on, and tells what it took.
#[derive(Drop)]
pub struct ToldSink<K: Sink + Drop> {
    inner: K,
    // What was taken, for proofs alone.
    taken: Appended<NotedBytes>,
    // The sink as it was handed in, for proofs alone.
    opening: Snapshot<K>,
}

impl<K: Sink + Drop> Model for ToldSink<K> {
    ghost use Rattle.told_links.specs.Shown.{ToldText};
    ghost use Rattle.std.specs.Prelude.{◌≡◌};
    ghost use Rattle.streams.specs.Content.{told_more};
    ghost use Rattle.told_links.specs.Noted.{bytes_noted};

    ghost Value = { ToldText K };

    ghost view = { λ s. record { inner = s.inner; taken = bytes_noted s.taken } };

    // Where the sink inside tells what it took, it took this since it was handed in.
    ghost invariant = { λ s. K.taken s.inner ≡ told_more (K.taken s.opening.value) (bytes_noted s.taken) };
}

impl<K: Sink + Drop> ToldSink<K> {
    /// Over this sink. It has taken nothing, of what is told.
    pub fn new(inner: K) -> ToldSink<K>
        ensures { result ≡ record { inner = inner; taken = [] } }
    {
        let opening = Snapshot::of(&inner);
        ToldSink {
            inner,
            taken: Appended::new(),
            opening,
        }
    }
}

impl<K: Sink + Drop> Sink for ToldSink<K> {
    ghost use Rattle.std.specs.Prelude.{Some};

    ghost taken = { λ s. Some s.taken };

    ghost faults = { λ s. K.faults s.inner };

    fn write(&mut self, bytes: &[u8]) -> Result<usize, Failed>
        ensures inside { MatchResult result
            (λ count. HasWritten (K.taken self.old.inner) (K.taken self.new.inner) bytes.now count)
            (λ _. K.taken self.new.inner ≡ K.taken self.old.inner) }
        ensures cause { HasCause (K.faults self.old.inner) (K.faults self.new.inner) result }
        ensures taken { self.new.taken ≡ moved_after self.old.taken bytes.now result }
    {
        match self.inner.write(bytes) {
            Ok(count) => {
                note_bytes(&mut self.taken, &bytes[..count]);
                Ok(count)
            }
            Err(Failed) => Err(Failed),
        }
    }
}
