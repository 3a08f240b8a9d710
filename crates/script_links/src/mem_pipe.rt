//! A pipe in memory.

ghost use Rattle.std.specs.Prelude.{◌≡◌, ◌↔◌, Some, [], ◌∷◌, ◌++◌, ◌||◌, take, drop, length, min, MatchResult, IfOk, IsErr, IsTrue, refl};
ghost use Rattle.outside.specs.Pipes.{Receives, Sends, is_end};
ghost use Rattle.script_links.specs.Failing.{fails_next};
ghost use Rattle.script_links.specs.Called.{called_in_chain};
ghost use Rattle.script_links.specs.Answering.{fresh_mem_pipe, mem_pipe_told, past_pipe, after_receiving, after_failed_receiving, after_sending, after_failed_sending};

use crate::call_list::CallList;
use crate::called::{CalledChain, CalledRow};
use outside::Pipe;
use std::alloc::Global;
use std::marker::Model;
use streams::{Failed, Sink, Source};

/// What a pipe answers, and which of its reads and writes are to fail, by their numbers, counted together from 0.
#[derive(Drop)]
pub struct PipeReply {
    /// The bytes that reads give.
    pub reply: Vec<u8>,
    /// The numbers.
    pub fails: Vec<u64>,
}

impl Model for PipeReply {
    ghost use Rattle.script_links.specs.Answering.{PlainPipeReply};

    ghost Value = { PlainPipeReply };

    ghost view = { λ a. record { reply = a.reply.items; fails = a.fails.items } };
}

/// A pipe to a port at which some bytes are answered, whatever is written. A read or a write that is to fail does, and counts a fault; so does a write that finds no memory.
#[derive(Drop)]
pub struct MemPipe {
    /// The port.
    port: u16,
    /// What was written.
    written: Vec<u8>,
    /// All that is answered.
    reply: Vec<u8>,
    /// How much of it was read.
    at: usize,
    /// Whether a read has answered the end.
    ended: bool,
    /// The reads and writes.
    calls: CallList,
    /// How many reads failed; it stands still at its type's end, as the next two do.
    read_faults: u64,
    /// How many writes failed.
    write_faults: u64,
    /// How many of these found no memory.
    wants: u64,
    /// The box that it takes to hang it up.
    room: Box<CalledChain>,
}

impl Model for MemPipe {
    ghost use Rattle.std.specs.Prelude.{◌≤◌, take, drop, length};
    ghost use Rattle.script_links.specs.Answering.{AnsweringPipe};

    ghost Value = { AnsweringPipe };

    ghost view = { λ p. record {
      port = p.port;
      written = p.written.items;
      given = take p.at p.reply.items;
      left = drop p.at p.reply.items;
      ended = p.ended;
      calls = p.calls;
      read_faults = p.read_faults;
      write_faults = p.write_faults;
      wants = p.wants;
    } };

    ghost invariant = { λ p. p.at ≤ length p.reply.items };
}

impl MemPipe {
    /// A pipe to this port, at which this is answered; this box is kept until it is hung up. Takes no memory.
    pub(crate) fn new(alloc: Global, port: u16, answer: PipeReply, room: Box<CalledChain>) -> Self
        ensures { result ≡ fresh_mem_pipe port answer }
    {
        MemPipe {
            port,
            written: Vec::new(alloc),
            reply: answer.reply,
            at: 0,
            ended: false,
            calls: CallList::new(answer.fails),
            read_faults: 0,
            write_faults: 0,
            wants: 0,
            room,
        }
    }

    /// How many reads failed.
    pub(crate) fn read_faults(&self) -> u64
        ensures { result ≡ self.now.read_faults }
    {
        self.read_faults
    }

    /// How many writes failed.
    pub(crate) fn write_faults(&self) -> u64
        ensures { result ≡ self.now.write_faults }
    {
        self.write_faults
    }

    /// How many writes found no memory.
    pub fn wants(&self) -> u64
        ensures { result ≡ self.now.wants }
    {
        self.wants
    }
}

impl Source for MemPipe {
    ghost given = { λ p. Some p.given };

    ghost left = { λ p. Some p.left };

    ghost faults = { λ p. p.read_faults };

    fn read(&mut self, into: &mut [u8]) -> Result<usize, Failed> {
        self.receive(into)
    }
}

impl Sink for MemPipe {
    ghost taken = { λ p. Some p.written };

    ghost faults = { λ p. p.write_faults };

    fn write(&mut self, bytes: &[u8]) -> Result<usize, Failed> {
        self.send(bytes)
    }
}

impl Pipe for MemPipe {
    ghost state = { mem_pipe_told };

    fn receive(&mut self, into: &mut [u8]) -> Result<usize, Failed>
        ensures receives { Receives into.new (mem_pipe_told self.old) (mem_pipe_told self.new) result }
        // It fails where it was told to, and nowhere else; else it gives what there is room for.
        ensures fails { IsErr result ↔ IsTrue (fails_next self.old.calls) }
        ensures count { IfOk result (λ count. count ≡ min (length self.old.left) (length into.old)) }
        ensures after { MatchResult result
            (λ count. self.new ≡ after_receiving (length into.old) count self.old)
            (λ _. self.new ≡ after_failed_receiving self.old) }
    {
        if self.calls.count() {
            self.read_faults = self.read_faults.saturating_add(1);
            return Err(Failed);
        }
        let lent = into.len();
        let (_, left) = self.reply.as_slice().split_at(self.at);
        let count = fill(into, left);
        self.at += count;
        self.ended = is_ended(self.ended, lent, count);
        Ok(count)
    }

    fn send(&mut self, bytes: &[u8]) -> Result<usize, Failed>
        ensures sends { Sends bytes.now (mem_pipe_told self.old) (mem_pipe_told self.new) result }
        // It fails where it was told to; else it takes all bytes, or finds no memory.
        ensures fails { IsTrue (fails_next self.old.calls) → IsErr result }
        ensures count { IfOk result (λ count. count ≡ length bytes.now) }
        ensures after { MatchResult result
            (λ _. self.new ≡ after_sending bytes.now self.old)
            (λ _. self.new ≡ after_failed_sending self.old) }
    {
        if self.calls.count() {
            self.write_faults = self.write_faults.saturating_add(1);
            return Err(Failed);
        }
        match self.written.extend_from_slice(bytes) {
            Ok(()) => Ok(bytes.len()),
            Err(_) => {
                self.write_faults = self.write_faults.saturating_add(1);
                self.wants = self.wants.saturating_add(1);
                Err(Failed)
            }
        }
    }

    ghost reads = { λ p. (refl, refl) };

    ghost writes = { λ p. (refl, refl) };
}

/// Whether the end was answered, before or by a read for which so much was lent and which gave `count` bytes.
fn is_ended(before: bool, lent: usize, count: usize) -> bool
    ensures { result ≡ (before || is_end lent count) }
{
    before || lent > 0 && count == 0
}

/// Copies the front of `left` to the front of `into`, as much as there is room for, and answers how much.
fn fill(into: &mut [u8], left: &[u8]) -> usize
    ensures count { result ≡ min (length left.now) (length into.old) }
    ensures copied { into.new ≡ take result left.now ++ drop result into.old }
{
    let count = left.len().min(into.len());
    into[..count].copy_from_slice(&left[..count]);
    count
}

/// Hangs a pipe up: what is kept of it goes behind those that were hung up before, in its box.
pub(crate) fn hung_up(pipe: MemPipe, before: CalledChain) -> CalledChain
    ensures { called_in_chain result ≡ called_in_chain before ++ past_pipe pipe ∷ [] }
{
    let MemPipe {
        port,
        written,
        mut reply,
        at,
        ended,
        mut room,
        ..
    } = pipe;
    reply.truncate(at);
    *room = before;
    CalledChain::Behind(
        room,
        CalledRow {
            port,
            written,
            read: reply,
            ended,
        },
    )
}
