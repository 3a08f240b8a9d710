//! Pipes over sockets.

ghost use Rattle.std.specs.Prelude.{◌≡◌, ◌≤◌, ◌<◌, length, IfOk, refl};
ghost use Rattle.net_links.specs.Piping.{fresh_net_pipe, net_pipe_told};

use outside::Pipe;
use std::io::{self, ErrorKind, Read, Write};
use std::marker::Model;
use streams::{Failed, Sink, Source};

/// A call that a signal cuts off is made again, so often at most.
const TRIES: u32 = 16;

/// A connection that was dialled. A read waits until bytes have come or the input has ended, and a write until the system takes bytes.
#[derive(Drop)]
pub struct NetPipe<S: Read + Write + Drop> {
    stream: S,
    /// The port that was dialled.
    port: u16,
    /// How many reads failed; it stands still at its type's end, as the next one does.
    read_faults: u64,
    /// How many writes failed or took nothing.
    write_faults: u64,
}

impl<S: Read + Write + Drop> Model for NetPipe<S> {
    ghost use Rattle.net_links.specs.Piping.{PipeAccount};

    ghost Value = { PipeAccount };

    ghost view = { λ p. record { port = p.port; read_faults = p.read_faults; write_faults = p.write_faults } };
}

impl<S: Read + Write + Drop> NetPipe<S> {
    /// A pipe to this port over a stream that was connected to it.
    pub(crate) fn over(stream: S, port: u16) -> Self
        ensures { result ≡ fresh_net_pipe port }
    {
        NetPipe {
            stream,
            port,
            read_faults: 0,
            write_faults: 0,
        }
    }

    /// How many reads failed.
    pub fn read_faults(&self) -> u64
        ensures { result ≡ self.now.read_faults }
    {
        self.read_faults
    }

    /// How many writes failed or took nothing.
    pub fn write_faults(&self) -> u64
        ensures { result ≡ self.now.write_faults }
    {
        self.write_faults
    }
}

impl<S: Read + Write + Drop> Source for NetPipe<S> {
    ghost use Rattle.std.specs.Prelude.{None};

    ghost given = { λ _. None };

    ghost left = { λ _. None };

    ghost faults = { λ p. p.read_faults };

    fn read(&mut self, into: &mut [u8]) -> Result<usize, Failed> {
        self.receive(into)
    }
}

impl<S: Read + Write + Drop> Sink for NetPipe<S> {
    ghost use Rattle.std.specs.Prelude.{None};

    ghost taken = { λ _. None };

    ghost faults = { λ p. p.write_faults };

    fn write(&mut self, bytes: &[u8]) -> Result<usize, Failed> {
        self.send(bytes)
    }
}

impl<S: Read + Write + Drop> Pipe for NetPipe<S> {
    ghost state = { net_pipe_told };

    fn receive(&mut self, into: &mut [u8]) -> Result<usize, Failed> {
        match read_some(&mut self.stream, into) {
            Ok(count) => Ok(count),
            Err(_) => {
                self.read_faults = self.read_faults.saturating_add(1);
                Err(Failed)
            }
        }
    }

    fn send(&mut self, bytes: &[u8]) -> Result<usize, Failed> {
        match write_some(&mut self.stream, bytes) {
            Ok(count) if count > 0 || bytes.is_empty() => Ok(count),
            _ => {
                self.write_faults = self.write_faults.saturating_add(1);
                Err(Failed)
            }
        }
    }

    ghost reads = { λ p. (refl, refl) };

    ghost writes = { λ p. (refl, refl) };
}

/// Reads bytes to the front of `into`, none of them only at the end.
fn read_some<S: Read>(stream: &mut S, into: &mut [u8]) -> io::Result<usize>
    ensures { IfOk result (λ count. count ≤ length into.new) }
{
    for _ in 0..TRIES {
        match stream.read(into) {
            Err(error) if error.kind() == ErrorKind::Interrupted => {}
            other => return other,
        }
    }
    Err(io::Error::from(ErrorKind::Interrupted))
}

/// Writes bytes off the front of `bytes`.
fn write_some<S: Write>(stream: &mut S, bytes: &[u8]) -> io::Result<usize>
    ensures { IfOk result (λ count. count ≤ length bytes.now) }
{
    for _ in 0..TRIES {
        match stream.write(bytes) {
            Err(error) if error.kind() == ErrorKind::Interrupted => {}
            other => return other,
        }
    }
    Err(io::Error::from(ErrorKind::Interrupted))
}
