//! The standard streams, of which nothing is told.

ghost use Rattle.std.specs.Prelude.{◌≡◌};

use super::streams::{Failed, Sink, Source};
use std::io::{Read, Stderr, Stdin, Stdout, Write};
use std::marker::Model;

/// A reader as a source that tells nothing of its bytes.
#[derive(Drop)]
pub struct RealIn<R: Read> {
    /// Where the bytes come from.
    reader: R,
    /// How many reads failed; it stands still at its type's end.
    faults: u64,
}

impl<R: Read> Model for RealIn<R> {
    ghost use Rattle.std.specs.Prelude.{ℕ};

    ghost Value = { ℕ };

    ghost view = { λ s. s.faults };
}

impl RealIn<Stdin> {
    /// Standard input, without a buffer.
    pub fn new(rt: &HostRuntime) -> Self
        ensures { result ≡ 0 }
    {
        RealIn {
            reader: rt.stdin(),
            faults: 0,
        }
    }
}

impl<R: Read> RealIn<R> {
    /// Any reader as a source.
    pub fn over(reader: R) -> Self
        ensures { result ≡ 0 }
    {
        RealIn { reader, faults: 0 }
    }

    /// How many reads failed.
    pub fn faults(&self) -> u64
        ensures { result ≡ self.now }
    {
        self.faults
    }
}

impl<R: Read> Source for RealIn<R> {
    ghost use Rattle.std.specs.Prelude.{None};

    ghost given = { λ _. None };

    ghost left = { λ _. None };

    ghost faults = { λ s. s };

    fn read(&mut self, into: &mut [u8]) -> Result<usize, Failed> {
        match self.reader.read(into) {
            Ok(count) => Ok(count),
            Err(_) => {
                self.faults = self.faults.saturating_add(1);
                Err(Failed)
            }
        }
    }
}

/// A writer as a sink that tells nothing of its bytes.
#[derive(Drop)]
pub struct RealOut<W: Write> {
    /// Where the bytes go.
    writer: W,
    /// How many writes failed or took nothing; it stands still at its type's end.
    faults: u64,
}

impl<W: Write> Model for RealOut<W> {
    ghost use Rattle.std.specs.Prelude.{ℕ};

    ghost Value = { ℕ };

    ghost view = { λ s. s.faults };
}

impl RealOut<Stdout> {
    /// Standard output, without a buffer.
    pub fn output(rt: &HostRuntime) -> Self
        ensures { result ≡ 0 }
    {
        RealOut::over(rt.stdout())
    }
}

impl RealOut<Stderr> {
    /// Standard error, without a buffer.
    pub fn errors(rt: &HostRuntime) -> Self
        ensures { result ≡ 0 }
    {
        RealOut::over(rt.stderr())
    }
}

impl<W: Write> RealOut<W> {
    /// Any writer as a sink.
    pub fn over(writer: W) -> Self
        ensures { result ≡ 0 }
    {
        RealOut { writer, faults: 0 }
    }

    /// How many writes failed or took nothing.
    pub fn faults(&self) -> u64
        ensures { result ≡ self.now }
    {
        self.faults
    }
}

impl<W: Write> Sink for RealOut<W> {
    ghost use Rattle.std.specs.Prelude.{None};

    ghost taken = { λ _. None };

    ghost faults = { λ s. s };

    fn write(&mut self, bytes: &[u8]) -> Result<usize, Failed> {
        match self.writer.write(bytes) {
            Ok(count) if count > 0 || bytes.is_empty() => Ok(count),
            _ => {
                self.faults = self.faults.saturating_add(1);
                Err(Failed)
            }
        }
    }
}
