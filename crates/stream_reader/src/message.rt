//! A message as its bytes come.

ghost use Rattle.std.specs.Prelude.{◌≡◌, ◌≤◌, ◌+◌, ◌-◌, ◌++◌, [], min, length, IfOk, OnOk};
ghost use Rattle.limits.specs.Limits.{most_read};
ghost use Rattle.stream_model.specs.Progress.{message_progress};
ghost use Rattle.stream_reader.specs.Reading.{bytes_missing};

use super::walk::MessageWalk;
use limits::MOST_READ;
use std::alloc::{AllocError, Global};
use std::marker::Model;
use stream_model::MessageProgress;

/// How many bytes the first number of a message has.
const FIRST_NUMBER: u32 = 4;

/// The fewest bytes for which room is taken at once.
const LEAST_ROOM: usize = 256;

/// One message of at most so many bytes, as they come: how many are missing of the item of its grammar that is under
/// way, and, once none are, where the message ends or what is wrong with it (Thrift binary protocol, 'Message',
/// 'Struct').
#[derive(Drop)]
pub struct MessageReader {
    bytes: Vec<u8>,
    // For how many further bytes room was taken.
    room: usize,
    walk: MessageWalk,
}

impl Model for MessageReader {
    ghost use Rattle.std.specs.Prelude.{◌≤◌, ◌+◌, length, vec_capacity};
    ghost use Rattle.limits.specs.Limits.{most_read};
    ghost use Rattle.stream_reader.specs.Reading.{MessageRead};
    ghost use Rattle.stream_reader.specs.Tied.{IsTied};

    ghost Value = { MessageRead };

    ghost view = { λ r. record { most = r.walk.most; bytes = r.bytes.items; room = r.room } };

    ghost invariant = { λ r. IsTied r.walk r.bytes.items × (length r.bytes.items + r.room ≤ vec_capacity r.bytes) × (r.room ≤ most_read) };
}

impl MessageReader {
    /// A message of at most `most` bytes, of which none has come.
    #[tactic(auto, using(crate::proofs::Tying::fresh_tied))]
    pub fn new(alloc: Global, most: u32) -> Result<MessageReader, AllocError>
        ensures { IfOk result (λ r. (r.most ≡ most) × (r.bytes ≡ [])) }
    {
        let walk = MessageWalk::new(alloc, most)?;
        Ok(MessageReader {
            bytes: Vec::new(alloc),
            room: 0,
            walk,
        })
    }

    /// The bytes that came.
    pub fn bytes(&self) -> &[u8]
        ensures { result.now ≡ self.now.bytes }
    {
        self.bytes.as_slice()
    }

    /// What becomes of the bytes that came: how many are missing of the item under way, how many the message has, or
    /// its fault and the place of it.
    #[tactic(auto, using(crate::proofs::Tying::some_wanted, crate::proofs::Tying::decided))]
    pub fn progress(&self) -> MessageProgress
        ensures { result ≡ message_progress self.now.most self.now.bytes }
    {
        if self.walk.len() > 0 {
            return MessageProgress::Wants(self.walk.left(self.bytes.len()));
        }
        self.walk.decided()
    }

    /// How many bytes are missing of the item under way, and of an empty message of its first number; none once it is
    /// whole or at fault.
    #[tactic(auto, using(crate::proofs::Tying::missing_of_some))]
    pub fn missing(&self) -> u32
        ensures { result ≡ bytes_missing self.now.most self.now.bytes }
    {
        if self.bytes.is_empty() {
            return FIRST_NUMBER;
        }
        match self.progress() {
            MessageProgress::Wants(count) => count,
            MessageProgress::Whole(_) => 0,
            MessageProgress::Refused(_, _) => 0,
        }
    }

    /// Takes room for what is missing, at most 65,536 bytes at once, and never for more than that beyond the bytes that
    /// came. Without memory nothing changes.
    pub fn reserve(&mut self) -> Result<(), AllocError>
        ensures enough { OnOk result (min (bytes_missing self.old.most self.old.bytes) most_read ≤ self.new.room) }
        ensures not_more { self.new.room ≤ most_read }
        ensures same { (self.new.most ≡ self.old.most) × (self.new.bytes ≡ self.old.bytes) }
    {
        let count = (self.missing() as usize).min(MOST_READ);
        if count <= self.room {
            return Ok(());
        }
        let room = growth(self.bytes.len(), count);
        self.bytes.reserve_exact(room)?;
        self.room = room;
        Ok(())
    }

    /// Takes bytes that are missing, for which there is room.
    #[tactic(auto, using(crate::proofs::Tying::grown_tied, crate::proofs::Tying::stepped_tied, crate::proofs::Tying::not_past))]
    pub fn take(&mut self, bytes: &[u8])
        requires missing { length bytes.now ≤ bytes_missing self.old.most self.old.bytes }
        requires room { length bytes.now ≤ self.old.room }
        ensures { self.new ≡ record { most = self.old.most; bytes = self.old.bytes ++ bytes.now; room = self.old.room - length bytes.now } }
    {
        self.bytes.extend_from_slice(bytes).unwrap();
        self.room -= bytes.len();
        let start = self.walk.at() as usize;
        let end = start + self.walk.len() as usize;
        if start == end {
            return;
        }
        if self.bytes.len() < end {
            return;
        }
        self.walk.step(&self.bytes[start..end]);
    }

    /// Begins the next message, in the room of this one.
    #[tactic(auto, using(crate::proofs::Tying::fresh_tied))]
    pub fn clear(&mut self)
        ensures { self.new ≡ record { most = self.old.most; bytes = []; room = self.old.room } }
    {
        self.bytes.clear();
        self.bytes.shrink_to(MOST_READ);
        self.walk.restart();
    }
}

/// For how many bytes room is taken where so many came and so many are to come: in small messages for as many again.
fn growth(held: usize, count: usize) -> usize
    requires { count ≤ most_read }
    ensures { (count ≤ result) × (result ≤ most_read) }
{
    count.max(held.max(LEAST_ROOM).min(MOST_READ))
}
