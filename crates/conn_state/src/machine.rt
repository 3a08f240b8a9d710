//! The machine of one connection.

ghost use Rattle.std.specs.Prelude.{◌≡◌, ◌≢◌, ◌+◌, ◌<◌, ◌≤◌, ◌^◌, ◌↔◌, ◌++◌, length, drop, IsSome, IsNone, OnOk, OnErr, vec_capacity};
ghost use Rattle.conn_state.specs.Phase.{fresh_conn, wanted, size_asked, left_to_write, cause_of, IsHeld, IsReading, IsReady, IsWaiting, HasNotEnded, IsWriting, ready, waiting, ended};
ghost use Rattle.conn_state.specs.Run.{EachIsByte};
ghost use Rattle.conn_state.specs.Step.{after_took, after_size, after_size_bytes, after_payload_bytes, after_admission, after_answer, after_wrote, after_end_of_input, IsFromOutside};
ghost use Rattle.conn_state.specs.Inside.{phase_of, IsSoundState};

use super::size_bytes::SizeBytes;
use host_model::EndCause;
use limits::MOST_READ;
use std::alloc::{AllocError, Global};
use std::marker::Model;
use std::mem;
use streams::{Bytes, Settled};

/// What a connection is doing.
#[derive(Drop)]
enum State {
    /// Reads a size, of which fewer than four bytes are held.
    ReadingSize(SizeBytes),
    /// Has a size, at least 1, and no room for its frame.
    Held(u32),
    /// Reads a payload of this size, of which fewer bytes are held, with room for all of them.
    ReadingFrame(u32, Vec<u8>),
    /// Has the whole payload of the frame of this number.
    Ready(u64, Vec<u8>),
    /// Waits for the outcome of the frame of this number.
    Waiting(u64),
    /// Writes a reply, of which this many bytes, at most all, are written.
    Writing(Bytes, usize),
    /// Has ended.
    Ended(EndCause),
}

/// One connection: sizes and payloads are read in turn, and a reply is written before more is read.
#[derive(Drop)]
pub struct Conn {
    /// How many frames were whole so far.
    frames: u64,
    /// What the connection is doing.
    state: State,
}

impl Model for Conn {
    ghost use Rattle.conn_state.specs.Phase.{ConnView};

    ghost Value = { ConnView };

    ghost use Rattle.conn_state.specs.Inside.{phase_of, IsSoundState};

    ghost view = { λ c. record { frames = c.frames; phase = phase_of c.state } };

    ghost invariant = { λ c. IsSoundState c.state };
}

impl Conn {
    /// A new connection, of which no byte is read.
    pub fn new() -> Self
        ensures { result ≡ fresh_conn }
    {
        Conn {
            frames: 0,
            state: State::ReadingSize(SizeBytes::new()),
        }
    }

    /// How many bytes may be taken now: those that are missing of the size or of the frame, at most 65,536 at once, and
    /// none where nothing is read.
    pub fn want(&self) -> usize
        ensures count { result ≡ wanted self.now.phase }
        ensures reading { (0 < result) ↔ IsReading self.now.phase }
    {
        match &self.state {
            State::ReadingSize(held) => 4 - held.len(),
            State::ReadingFrame(size, payload) => (*size as usize - payload.len()).min(MOST_READ),
            _ => 0,
        }
    }

    /// How many frames were whole so far.
    pub fn frames(&self) -> u64
        ensures { result ≡ self.now.frames }
    {
        self.frames
    }

    /// Takes bytes that were read, where no frame may have more than `max_frame` bytes. A whole size that no frame has
    /// ends the connection.
    pub fn took(&mut self, bytes: &[u8], max_frame: u32)
        requires some { 0 < length bytes.now }
        requires asked { length bytes.now ≤ wanted self.old.phase }
        requires counted { self.old.frames < 2 ^ 62 }
        ensures after { self.new ≡ after_took max_frame self.old bytes.now }
        ensures bytes { EachIsByte bytes.now }
        ensures whole { self.old.frames < self.new.frames ↔ IsReady self.new.phase }
    {
        match mem::replace(&mut self.state, State::Waiting(0)) {
            State::ReadingSize(held) => self.state = with_size_bytes(held, bytes, max_frame),
            State::ReadingFrame(size, payload) => self.took_payload(size, payload, bytes),
            other => self.state = other,
        }
    }

    /// Takes bytes of a payload of this size, of which these are held.
    fn took_payload(&mut self, size: u32, mut payload: Vec<u8>, bytes: &[u8])
        requires room { (length payload.items < size) × (size ≤ vec_capacity payload) }
        requires asked { length payload.items + length bytes.now ≤ size }
        requires counted { self.old.frames < 2 ^ 62 }
        ensures { self.new ≡ after_payload_bytes self.old.frames size (payload.items ++ bytes.now) }
    {
        payload.extend_from_slice(bytes).unwrap();
        if payload.len() < size as usize {
            self.state = State::ReadingFrame(size, payload);
            return;
        }
        let number = self.frames;
        self.frames = number + 1;
        self.state = State::Ready(number, payload);
    }

    /// The size of the frame that waits for its admission, exactly where one does.
    pub fn asks(&self) -> Option<u32>
        ensures size { result ≡ size_asked self.now.phase }
        ensures held { IsSome result ↔ IsHeld self.now.phase }
    {
        match &self.state {
            State::Held(size) => Some(*size),
            _ => None,
        }
    }

    /// Takes room for the whole frame that waits. Without memory nothing changes.
    pub fn admit(&mut self, alloc: Global) -> Result<(), AllocError>
        requires { IsHeld self.old.phase }
        ensures ok { OnOk result (self.new ≡ record self.old { phase = after_admission self.old.phase }) }
        ensures err { OnErr result (self.new ≡ self.old) }
    {
        let Some(size) = self.asks() else {
            return Ok(());
        };
        let payload = Vec::with_capacity(alloc, size as usize)?;
        self.state = State::ReadingFrame(size, payload);
        Ok(())
    }

    /// Hands out the whole payload and the number of its frame, counted from 0.
    pub fn give(&mut self) -> (u64, Vec<u8>)
        requires { IsReady self.old.phase }
        ensures given { self.old.phase ≡ ready result.0 result.1.items }
        ensures after { self.new ≡ record self.old { phase = waiting result.0 } }
    {
        match mem::replace(&mut self.state, State::Waiting(0)) {
            State::Ready(number, payload) => {
                self.state = State::Waiting(number);
                (number, payload)
            }
            _ => unreachable!(),
        }
    }

    /// Takes the outcome of the frame that was handed out.
    pub fn answered(&mut self, settled: Settled)
        requires { IsWaiting self.old.phase }
        ensures { self.new ≡ record self.old { phase = after_answer settled } }
    {
        self.state = match settled {
            Settled::Reply(reply) => State::Writing(reply, 0),
            Settled::Nothing => State::ReadingSize(SizeBytes::new()),
            Settled::Close(fault) => State::Ended(EndCause::Envelope(fault)),
            Settled::NoMemory => State::Ended(EndCause::NoMemory),
        };
    }

    /// The part of the reply that isn't written; empty where none is.
    pub fn pending(&self) -> &[u8]
        ensures left { result.now ≡ left_to_write self.now.phase }
        ensures writing { 0 < length result.now → IsWriting self.now.phase }
    {
        match &self.state {
            State::Writing(reply, done) => reply.as_slice().split_at(*done).1,
            _ => &[],
        }
    }

    /// Takes note that `count` bytes of the reply were written. After the whole reply the next size is read.
    pub fn wrote(&mut self, count: usize)
        requires some { 0 < count }
        requires pending { count ≤ length (left_to_write self.old.phase) }
        ensures { self.new ≡ record self.old { phase = after_wrote (drop count (left_to_write self.old.phase)) } }
    {
        match mem::replace(&mut self.state, State::Waiting(0)) {
            State::Writing(reply, done) => {
                self.state = written(reply, done + count);
            }
            _ => unreachable!(),
        }
    }

    /// Takes note that the input ended: whole where no byte of a size is held, else cut.
    pub fn end_of_input(&mut self)
        requires { IsReading self.old.phase }
        ensures { self.new ≡ record self.old { phase = after_end_of_input self.old.phase } }
    {
        self.state = State::Ended(cause_at_end(&self.state));
    }

    /// Ends the connection for a cause that its bytes don't show. A payload that is whole and not handed out is lost.
    pub fn end(&mut self, cause: EndCause)
        requires open { HasNotEnded self.old.phase }
        requires outside { IsFromOutside cause }
        ensures { self.new ≡ record self.old { phase = ended cause } }
    {
        self.state = State::Ended(cause);
    }

    /// Why the connection ended, exactly where it has.
    pub fn cause(&self) -> Option<EndCause>
        ensures cause { result ≡ cause_of self.now.phase }
        ensures over { IsNone result ↔ HasNotEnded self.now.phase }
    {
        match &self.state {
            State::Ended(cause) => Some(*cause),
            _ => None,
        }
    }
}

/// What a connection does once these bytes of a size are there.
fn with_size_bytes(mut held: SizeBytes, bytes: &[u8], max_frame: u32) -> State
    requires { length held + length bytes.now ≤ 4 }
    ensures phase { phase_of result ≡ after_size_bytes max_frame (held ++ bytes.now) }
    ensures sound { IsSoundState result }
{
    held.extend(bytes);
    if held.len() < 4 {
        return State::ReadingSize(held);
    }
    with_size(held.size(), max_frame)
}

/// Why a connection ends whose input ended in this state.
fn cause_at_end(state: &State) -> EndCause
    requires { IsReading (phase_of state.now) }
    ensures { ended result ≡ after_end_of_input (phase_of state.now) }
{
    match state {
        State::ReadingSize(held) if held.len() == 0 => EndCause::End,
        _ => EndCause::Cut,
    }
}

/// What a connection does once this size is whole.
fn with_size(size: i32, max_frame: u32) -> State
    ensures phase { phase_of result ≡ after_size max_frame size }
    ensures sound { IsSoundState result }
{
    if size < 1 {
        return State::Ended(EndCause::SizeFault(size));
    }
    let count = size as u32;
    if count > max_frame {
        return State::Ended(EndCause::SizeFault(size));
    }
    State::Held(count)
}

/// What a connection does once this many bytes of its reply are written.
fn written(reply: Bytes, done: usize) -> State
    requires { done ≤ length reply }
    ensures phase { phase_of result ≡ after_wrote (drop done reply) }
    ensures sound { IsSoundState result }
{
    if done < reply.as_slice().len() {
        return State::Writing(reply, done);
    }
    State::ReadingSize(SizeBytes::new())
}
