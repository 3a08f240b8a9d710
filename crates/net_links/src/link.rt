//! A link: a socket with the bytes that were read ahead of it, and those that wait to be sent.

ghost use Rattle.std.specs.Prelude.{◌≡◌, ◌≢◌, ◌≤◌, ◌<◌, length};
ghost use Rattle.outside.specs.Faults.{MovesWithin};
ghost use Rattle.outside.specs.declared.answers.Taken.TheVariants.{End};

use crate::pool::{BLOCK, Pool};
use crate::socket::{Transfer, receive, send};
use crate::waiting::Waiting;
use mio::net::TcpStream;
use outside::Taken;

/// What is known of the input of a socket.
#[derive(Clone, Copy, PartialEq, Eq)]
enum Inflow {
    /// It may have something to read.
    Ready,
    /// It has nothing to read until its next event.
    Drained,
    /// Its end was read.
    Ended,
}

/// What is told of a link.
#[derive(Clone, Copy)]
pub(crate) enum Readiness {
    /// It may have something to read.
    Readable,
    /// It may be written on.
    Writable,
}

/// A connection's socket.
#[derive(Drop)]
pub(crate) struct SocketLink {
    /// The number of the connection.
    number: u32,
    stream: TcpStream,
    /// What was read ahead and isn't asked for yet.
    input: Waiting,
    inflow: Inflow,
    /// Whether an event said that the peer sends no more, or failed, which the next reads will show: no event says so again.
    peer_done: bool,
    /// What was written and isn't sent yet.
    output: Waiting,
    /// Whether the socket took less than it was offered, and no event came since.
    blocked: bool,
    /// Whether a call failed; then nothing waits, and each further call fails.
    broken: bool,
    /// Whether a read was put off though the input has ended, since output waits.
    end_put_off: bool,
    /// Whether a write was put off since there was no room for it.
    write_put_off: bool,
    /// Whether it is to be told that it may have something to read.
    readable: bool,
    /// Whether it is to be told that it may be written on.
    writable: bool,
    /// Whether it stands among those of which something is to be told.
    pub listed: bool,
    /// Whether it stands among those whose output is to be sent.
    pub unsent: bool,
}

impl SocketLink {
    /// A connection that was opened just now.
    pub(crate) fn new(number: u32, stream: TcpStream) -> SocketLink {
        SocketLink {
            number,
            stream,
            input: Waiting::new(),
            inflow: Inflow::Ready,
            peer_done: false,
            output: Waiting::new(),
            blocked: false,
            broken: false,
            end_put_off: false,
            write_put_off: false,
            readable: false,
            writable: false,
            listed: false,
            unsent: false,
        }
    }

    /// The number of the connection.
    pub(crate) fn number(&self) -> u32 {
        self.number
    }

    /// Whether something was written that the socket may take.
    pub(crate) fn has_output(&self) -> bool {
        !self.output.is_empty() && !self.blocked
    }

    /// Whether something is to be told of it.
    pub(crate) fn is_due(&self) -> bool {
        self.readable || self.writable
    }

    /// A read is put off: it is to be told that there may be something to read.
    pub(crate) fn put_off(&mut self) {
        self.readable = true;
    }

    /// What is to be told of it next, which is told now.
    pub(crate) fn tell(&mut self) -> Option<Readiness> {
        if self.readable {
            self.readable = false;
            return Some(Readiness::Readable);
        }
        if self.writable {
            self.writable = false;
            return Some(Readiness::Writable);
        }
        None
    }

    /// Reads bytes to the front of `into`: those that were read ahead, or what has arrived.
    pub(crate) fn read(&mut self, pool: &mut Pool, into: &mut [u8]) -> Taken
        ensures { MovesWithin (length into.new) result }
    {
        if self.broken {
            return Taken::Failed;
        }
        let count = self.input.take(pool, into);
        if count > 0 {
            return Taken::Bytes(count);
        }
        match self.inflow {
            Inflow::Ready => self.receive(pool, into),
            Inflow::Drained => Taken::NotYet,
            Inflow::Ended => self.end(pool),
        }
    }

    /// Reads what has arrived, ahead of what was asked for where there is a block for it.
    fn receive(&mut self, pool: &mut Pool, into: &mut [u8]) -> Taken
        ensures { MovesWithin (length into.new) result }
    {
        if into.len() < BLOCK && self.read_ahead(pool) {
            let count = self.input.take(pool, into);
            if count > 0 {
                return Taken::Bytes(count);
            }
        }
        if self.broken {
            return Taken::Failed;
        }
        match self.inflow {
            Inflow::Ready => self.read_to(pool, into),
            Inflow::Drained => Taken::NotYet,
            Inflow::Ended => self.end(pool),
        }
    }

    /// Reads what has arrived into a block, and says whether there was one.
    fn read_ahead(&mut self, pool: &mut Pool) -> bool {
        let Some(start) = pool.take() else {
            return false;
        };
        let room = pool.room(start, start.saturating_add(BLOCK));
        let most = room.len();
        match receive(&self.stream, room) {
            Transfer::Bytes(count) => {
                self.input.hold(start, count);
                self.note_read(count, most);
            }
            other => {
                pool.give(start);
                self.note_none(pool, other);
            }
        }
        true
    }

    /// Reads what has arrived to the front of `into`.
    fn read_to(&mut self, pool: &mut Pool, into: &mut [u8]) -> Taken
        ensures { MovesWithin (length into.new) result }
    {
        let most = into.len();
        match receive(&self.stream, into) {
            Transfer::Bytes(count) => {
                self.note_read(count, most);
                Taken::Bytes(count)
            }
            Transfer::Nothing => {
                self.inflow = Inflow::Ended;
                self.end(pool)
            }
            Transfer::Blocked => {
                self.inflow = Inflow::Drained;
                Taken::NotYet
            }
            Transfer::Failed => self.break_off(pool),
        }
    }

    /// So many bytes were read where `most` were asked for: where fewer came, nothing is left until the next event.
    fn note_read(&mut self, count: usize, most: usize) {
        if count < most && !self.peer_done {
            self.inflow = Inflow::Drained;
        }
    }

    /// No bytes were read.
    fn note_none(&mut self, pool: &mut Pool, moved: Transfer) {
        match moved {
            Transfer::Nothing => self.inflow = Inflow::Ended,
            Transfer::Blocked => self.inflow = Inflow::Drained,
            _ => {
                self.break_off(pool);
            }
        }
    }

    /// The input has ended: that is told once all output is sent.
    fn end(&mut self, pool: &mut Pool) -> Taken
        ensures { MovesWithin 0 result }
    {
        if !self.blocked {
            self.flush(pool);
        }
        if self.broken {
            return Taken::Failed;
        }
        if self.output.is_empty() {
            return Taken::End;
        }
        self.end_put_off = true;
        Taken::NotYet
    }

    /// A call failed. What waits is let go.
    fn break_off(&mut self, pool: &mut Pool) -> Taken
        ensures { result ≡ Taken.Failed }
    {
        self.broken = true;
        self.input.let_go(pool);
        self.output.let_go(pool);
        Taken::Failed
    }

    /// Takes bytes off the front of `bytes` to be sent later, or sends them where they are too many to wait.
    pub(crate) fn write(&mut self, pool: &mut Pool, bytes: &[u8]) -> Taken
        ensures within { MovesWithin (length bytes.now) result }
        ensures no_end { result ≢ End }
    {
        if bytes.len() > self.output.room() && !self.blocked {
            self.flush(pool);
        }
        if self.broken {
            return Taken::Failed;
        }
        if bytes.len() >= BLOCK && self.output.is_empty() && !self.blocked {
            return self.send(pool, bytes);
        }
        let count = self.output.put(pool, bytes);
        if count > 0 {
            return Taken::Bytes(count);
        }
        self.write_put_off = true;
        Taken::NotYet
    }

    /// Sends bytes off the front of `bytes` at once. Nothing else waits to be sent.
    fn send(&mut self, pool: &mut Pool, bytes: &[u8]) -> Taken
        ensures within { MovesWithin (length bytes.now) result }
        ensures no_end { result ≢ End }
    {
        match send(&self.stream, bytes) {
            Transfer::Bytes(count) => {
                self.blocked = count < bytes.len();
                Taken::Bytes(count)
            }
            Transfer::Blocked => {
                self.blocked = true;
                self.write_put_off = true;
                Taken::NotYet
            }
            _ => self.break_off(pool),
        }
    }

    /// Sends what waits, as far as the socket takes it at once.
    pub(crate) fn flush(&mut self, pool: &mut Pool) {
        if self.output.is_empty() {
            return;
        }
        let bytes = self.output.bytes(pool);
        let most = bytes.len();
        match send(&self.stream, bytes) {
            Transfer::Bytes(count) => {
                self.output.pass(pool, count);
                self.blocked = count < most;
            }
            Transfer::Blocked => self.blocked = true,
            _ => {
                self.break_off(pool);
            }
        }
        self.note_sent();
    }

    /// Output was sent, or can't be: what was put off may go on.
    fn note_sent(&mut self) {
        if self.end_put_off && self.output.is_empty() {
            self.end_put_off = false;
            self.readable = true;
        }
        if self.write_put_off && !self.blocked {
            self.write_put_off = false;
            self.writable = true;
        }
        if self.broken {
            self.readable = true;
        }
    }

    /// An event said that the socket may have something to read; `done` that nothing follows it.
    pub(crate) fn note_readable(&mut self, done: bool) {
        self.peer_done = self.peer_done || done;
        if self.inflow == Inflow::Drained {
            self.inflow = Inflow::Ready;
        }
        self.readable = true;
    }

    /// An event said that the socket may take bytes: those that wait are sent.
    pub(crate) fn note_writable(&mut self, pool: &mut Pool) {
        if self.blocked {
            self.blocked = false;
            self.flush(pool);
            self.note_sent();
        }
    }

    /// Sends what the socket takes at once, and gives all blocks back.
    pub(crate) fn close(mut self, pool: &mut Pool) {
        if !self.broken {
            self.flush(pool);
        }
        self.input.let_go(pool);
        self.output.let_go(pool);
    }
}
