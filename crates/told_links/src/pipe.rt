//! A pipe over another pipe.

ghost use Rattle.std.specs.Prelude.{◌≡◌, length, refl};
ghost use Rattle.outside.specs.Pipes.{Receives, Sends};
ghost use Rattle.told_links.specs.Moved.{moved_after, ended_after};

use crate::noting::{note_bytes, note_end};
use lists::{Appended, NotedBytes};
use outside::Pipe;
use std::marker::Model;
use streams::{Failed, Sink, Source};

/// A pipe that passes each call on, and tells what was written and what was read.
#[derive(Drop)]
pub struct ToldPipe<P: Pipe> {
    pub(crate) inner: P,
    // What was written, what was read, and the reads that answered the end, for proofs alone.
    pub(crate) written: Appended<NotedBytes>,
    pub(crate) given: Appended<NotedBytes>,
    pub(crate) ends: Appended<()>,
}

impl<P: Pipe> Model for ToldPipe<P> {
    ghost use Rattle.told_links.specs.Shown.{ToldTalk};
    ghost use Rattle.told_links.specs.Noted.{bytes_noted, end_noted};
    ghost use Rattle.told_links.specs.Same.{TellsTheSame};

    ghost Value = { ToldTalk P };

    ghost view = { λ p. record {
      inner = p.inner;
      written = bytes_noted p.written;
      given = bytes_noted p.given;
      ended = end_noted p.ends;
    } };

    // What the pipe inside tells is the same.
    ghost invariant = { λ p.
        TellsTheSame (P.state p.inner) (bytes_noted p.written) (bytes_noted p.given) (end_noted p.ends) };
}

impl<P: Pipe> Source for ToldPipe<P> {
    ghost use Rattle.std.specs.Prelude.{Some, None};

    ghost given = { λ p. Some p.given };

    ghost left = { λ _. None };

    ghost faults = { λ p. (P.state p.inner).read_faults };

    fn read(&mut self, into: &mut [u8]) -> Result<usize, Failed>
        ensures inside { Receives into.new (P.state self.old.inner) (P.state self.new.inner) result }
        ensures given { self.new.given ≡ moved_after self.old.given into.new result }
        ensures ended { self.new.ended ≡ ended_after self.old.ended (length into.new) result }
        ensures written { self.new.written ≡ self.old.written }
    {
        self.receive(into)
    }
}

impl<P: Pipe> Sink for ToldPipe<P> {
    ghost use Rattle.std.specs.Prelude.{Some};

    ghost taken = { λ p. Some p.written };

    ghost faults = { λ p. (P.state p.inner).write_faults };

    fn write(&mut self, bytes: &[u8]) -> Result<usize, Failed>
        ensures inside { Sends bytes.now (P.state self.old.inner) (P.state self.new.inner) result }
        ensures written { self.new.written ≡ moved_after self.old.written bytes.now result }
        ensures given { self.new.given ≡ self.old.given }
        ensures ended { self.new.ended ≡ self.old.ended }
    {
        self.send(bytes)
    }
}

impl<P: Pipe> Pipe for ToldPipe<P> {
    ghost use Rattle.told_links.specs.Telling.{told_pipe};

    ghost state = { λ p. told_pipe (P.state p.inner) p.written p.given p.ended };

    fn receive(&mut self, into: &mut [u8]) -> Result<usize, Failed>
        ensures inside { Receives into.new (P.state self.old.inner) (P.state self.new.inner) result }
        ensures given { self.new.given ≡ moved_after self.old.given into.new result }
        ensures ended { self.new.ended ≡ ended_after self.old.ended (length into.new) result }
        ensures written { self.new.written ≡ self.old.written }
    {
        match self.inner.receive(into) {
            Ok(count) => {
                note_bytes(&mut self.given, &into[..count]);
                note_end(&mut self.ends, into.len(), count);
                Ok(count)
            }
            Err(Failed) => Err(Failed),
        }
    }

    fn send(&mut self, bytes: &[u8]) -> Result<usize, Failed>
        ensures inside { Sends bytes.now (P.state self.old.inner) (P.state self.new.inner) result }
        ensures written { self.new.written ≡ moved_after self.old.written bytes.now result }
        ensures given { self.new.given ≡ self.old.given }
        ensures ended { self.new.ended ≡ self.old.ended }
    {
        match self.inner.send(bytes) {
            Ok(count) => {
                note_bytes(&mut self.written, &bytes[..count]);
                Ok(count)
            }
            Err(Failed) => Err(Failed),
        }
    }

    ghost reads = { λ p. (refl, refl) };

    ghost writes = { λ p. (refl, refl) };
}
