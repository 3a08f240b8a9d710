//! Runs of the plain machine at a desk at which each payload calls one function, which has one reply; their events in short.

ghost use Rattle.std.specs.Prelude.{◌≡◌, ◌<◌, ◌^◌};

use host_model::EndCause;
use plain_machine::{
    Decided, PlainApplyResult, PlainCell, PlainConnEvent, PlainDesk, PlainEvent, PlainServices,
    run, start,
};
use std::alloc::{AllocError, Global};
use streams::Bytes;

// A desk with one reply.
#[derive(Drop)]
struct OneReply {
    max: u32,
    frame: &'static [u8],
}

impl OneReply {
    fn new(max: u32, frame: &'static [u8]) -> Self
        ensures { result.max ≡ max }
    {
        OneReply { max, frame }
    }
}

impl PlainDesk for OneReply {
    ghost use Rattle.std.specs.Prelude.{false};
    ghost use Rattle.host_model.specs.DeskRules.{Invoke};

    type Call = u8;

    type Answer = u8;

    ghost desk = { λ t. record { max = t.max; decide = λ payload. Invoke 0; silent = λ call. false; reply = λ payload answer. t.frame.now } };

    fn decide(&self, _alloc: Global, _payload: &[u8]) -> Result<Decided<u8>, AllocError> {
        Ok(Decided::Called(0))
    }

    fn is_silent(&self, _call: u8) -> bool {
        false
    }

    fn reply(&self, alloc: Global, _payload: &[u8], _answer: u8) -> Result<Vec<u8>, AllocError> {
        Vec::from_slice(alloc, self.frame)
    }
}

// A service that remembers nothing.
struct Forgetful;

impl PlainServices for Forgetful {
    type Call = u8;

    type Answer = u8;

    type Memory = u8;

    ghost rules = { λ _. record { slot = λ call. 0; rule = λ call kept. (0, kept) } };

    fn slot(&self, _call: u8) -> usize {
        0
    }

    fn rule(&self, _call: u8, kept: u8) -> (u8, u8) {
        (0, kept)
    }

    fn is_same(&self, answer: u8, other: u8) -> bool {
        answer == other
    }
}

// The event that a letter is: of the connection with this number, or of the worker.
fn event_of(alloc: Global, letter: u8, number: u32) -> Result<PlainEvent, AllocError> {
    let event = match letter {
        b'o' => PlainEvent::Happens(PlainConnEvent::Opens),
        // A size and a payload are read.
        b'r' => return reads(alloc, number, b"\x00\x00\x00\x06"),
        b'R' => return reads(alloc, number, b"\x82\x21\x01\x01f\x00"),
        b'e' => PlainEvent::Happens(PlainConnEvent::Ends(number)),
        // A whole reply is written.
        b'W' => PlainEvent::Happens(PlainConnEvent::Writes(number, 10)),
        b'S' => PlainEvent::Happens(PlainConnEvent::GivesUp(number, EndCause::Stopped)),
        b's' => PlainEvent::Submits(number),
        b't' => PlainEvent::Takes(number),
        b'a' => PlainEvent::Applies(number, PlainApplyResult::Answers),
        b'j' => PlainEvent::Applies(number, PlainApplyResult::FailsJournal),
        b'p' => PlainEvent::Puts(number),
        b'c' => PlainEvent::Collects,
        _ => PlainEvent::Closes,
    };
    Ok(event)
}

// A connection reads these bytes.
fn reads(alloc: Global, c: u32, bytes: &[u8]) -> Result<PlainEvent, AllocError> {
    let bytes = Bytes::new(Vec::from_slice(alloc, bytes)?);
    Ok(PlainEvent::Happens(PlainConnEvent::Reads(c, bytes)))
}

// The events that a text is, a letter and a digit each.
fn events_of(alloc: Global, short: &[u8]) -> Result<Vec<PlainEvent>, AllocError> {
    let mut events = Vec::new(alloc);
    for pair in short.chunks(2) {
        if let [letter, digit] = pair {
            events.push(event_of(alloc, *letter, u32::from(digit.saturating_sub(b'0')))?)?;
        }
    }
    Ok(events)
}

fn run_at(
    alloc: Global,
    max: u32,
    events: &[PlainEvent],
) -> Result<Option<PlainCell<u8, u8, u8>>, AllocError>
    requires { max < 2 ^ 31 }
{
    let desk = OneReply::new(max, b"\x00\x00\x00\x06\x82\x41\x01\x01\x66\x00");
    let first = start(alloc, vec![in alloc; 0]?);
    run(alloc, max, &desk, &Forgetful, first, events)
}

// What these events leave, where each can be.
pub(crate) fn after(
    alloc: Global,
    short: &[u8],
) -> Result<Option<PlainCell<u8, u8, u8>>, AllocError> {
    let events = events_of(alloc, short)?;
    run_at(alloc, 1_000_000, events.as_slice())
}
