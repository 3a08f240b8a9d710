//! What is still to be read.

ghost use Rattle.std.specs.Prelude.{◌≡◌, length};
ghost use Rattle.wire_num.specs.Decoding.{decode_bytes};
ghost use Rattle.wire_model.specs.Answering.{AnswersExactly};
ghost use Rattle.wire_model.specs.Decoder.{count_value, uncounted};

use std::marker::Model;
use thrift_value::WireFault;
use wire_num::decode_bytes;

/// The bytes that are still to be read, and how many more values may come.
#[derive(Drop)]
pub struct Input<'a> {
    bytes: &'a [u8],
    budget: u32,
}

impl<'a> Model for Input<'a> {
    ghost use Rattle.wire_model.specs.Decoder as decoder;

    ghost Value = { decoder.Unread };

    ghost view = { λ r. record { bytes = r.bytes.now; budget = r.budget } };
}

impl<'a> Input<'a> {
    /// Takes all of these bytes, of at most so many values.
    pub fn new(bytes: &'a [u8], budget: u32) -> Self
        ensures { result ≡ record { bytes = bytes.now; budget = budget } }
    {
        Input { bytes, budget }
    }

    /// The bytes that are left.
    pub fn bytes(&self) -> &'a [u8]
        ensures { result.now ≡ self.now.bytes }
    {
        self.bytes
    }

    /// How many more values may come.
    pub(crate) fn budget(&self) -> u32
        ensures { result ≡ self.now.budget }
    {
        self.budget
    }

    /// These bytes in place of those that are left; as many values may come.
    pub fn with_bytes(self, bytes: &'a [u8]) -> Input<'a>
        ensures { result ≡ record { bytes = bytes.now; budget = self.entry.budget } }
    {
        Input {
            bytes,
            budget: self.budget,
        }
    }

    /// The next bytes, so many, and what is left behind them.
    pub fn next(self, size: usize) -> Result<(&'a [u8], Input<'a>), WireFault>
        ensures { AnswersExactly (λ r. (r.0.now, r.1)) result (uncounted (decode_bytes size) self.entry) }
    {
        let (front, behind) = decode_bytes(self.bytes, size)?;
        Ok((front, self.with_bytes(behind)))
    }

    /// What is left when one more value comes.
    pub(crate) fn count_value(self) -> Result<Input<'a>, WireFault>
        ensures { AnswersExactly (λ r. (tt, r)) result (count_value self.entry) }
    {
        if self.budget == 0 {
            return Err(WireFault::TooMany);
        }
        Ok(Input {
            bytes: self.bytes,
            budget: self.budget - 1,
        })
    }
}
