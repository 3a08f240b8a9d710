//! What is still to be read, and the parts of a value in front of it.
ghost use Rattle.std.specs.Prelude.{◌≡◌, ◌≤◌, length, drop, take, All, ◌<◌};
ghost use Rattle.limits.specs.Limits.{most_levels, most_values};
ghost use Rattle.thrift_value.specs.TreeOf.{tree_of};
ghost use Rattle.wire_model.specs.Answering.{AnswersExactly};
ghost use Rattle.wire_model.specs.AtPlace.{head_of, left_at, passed_over};
ghost use Rattle.wire_model.specs.Decoder.{count_value};
ghost use Rattle.wire_model.specs.Reading.{value};
ghost use Rattle.wire_model.specs.Wire.{IsScalar};

use limits::{MOST_LEVELS, MOST_VALUES};
use std::marker::Model;
use thrift_value::{Tag, Value, WireFault};
use wire_model::{FieldHead, Wire};

/// The bytes that are still to be read, and how many more values may come.
#[derive(Drop)]
pub(crate) struct Rest<'a> {
    bytes: &'a [u8],
    budget: u32,
    ghost few: { budget ≤ most_values },
}

impl<'a> Model for Rest<'a> {
    ghost use Rattle.wire_model.specs.Decoder as decoder;

    ghost Value = { decoder.Unread };

    ghost view = { λ r. record { bytes = r.bytes.now; budget = r.budget } };
}

impl<'a> Rest<'a> {
    /// Takes all of these bytes, of at most 4,000,000 values.
    pub(crate) fn new(bytes: &'a [u8]) -> Self
        ensures { result ≡ record { bytes = bytes.now; budget = most_values } }
    {
        Rest {
            bytes,
            budget: MOST_VALUES,
        }
    }

    /// The bytes that are left.
    pub(crate) fn bytes(&self) -> &'a [u8]
        ensures { result.now ≡ self.now.bytes }
    {
        self.bytes
    }

    /// What is left from a place on; as many values may come.
    fn behind(self, place: usize) -> Rest<'a>
        requires { place ≤ length self.bytes }
        ensures { result ≡ left_at self.entry.bytes place self.entry.budget }
    {
        Rest {
            bytes: self.bytes.split_at(place).1,
            budget: self.budget,
        }
    }

    /// What is left when one more value comes.
    pub(crate) fn count_value(self) -> Result<Rest<'a>, WireFault>
        ensures { AnswersExactly (λ r. (tt, r)) result (count_value self.entry) }
    {
        if self.budget == 0 {
            return Err(WireFault::TooMany);
        }
        Ok(Rest {
            bytes: self.bytes,
            budget: self.budget - 1,
        })
    }
}

/// The head of a field behind the field `last`.
pub(crate) fn field<'a, W: Wire>(
    rest: Rest<'a>,
    last: i16,
) -> Result<(FieldHead, Rest<'a>), WireFault>
    ensures { AnswersExactly (λ r. (head_of r.0, r.1)) result (W.wire.field last rest.entry) }
{
    match W::field(rest.bytes, 0, last) {
        Ok((head, place)) => Ok((head, rest.behind(place))),
        Err(fault) => Err(fault),
    }
}

/// A number or a bool.
pub(crate) fn scalar<'a, W: Wire>(rest: Rest<'a>, tag: Tag) -> Result<(Value, Rest<'a>), WireFault>
    requires { IsScalar tag }
    ensures { AnswersExactly (λ r. (tree_of r.0, r.1)) result (W.wire.scalar tag rest.entry) }
{
    match W::scalar(rest.bytes, 0, tag) {
        Ok((value, place)) => Ok((value, rest.behind(place))),
        Err(fault) => Err(fault),
    }
}

/// The bytes of a text.
pub(crate) fn span<'a, W: Wire>(rest: Rest<'a>) -> Result<(&'a [u8], Rest<'a>), WireFault>
    ensures { AnswersExactly (λ r. (r.0.now, r.1)) result (W.wire.span rest.entry) }
{
    match W::span(rest.bytes, 0) {
        Ok((begin, place)) => {
            let (front, _) = rest.bytes.split_at(place);
            let (_, text) = front.split_at(begin);
            Ok((text, rest.behind(place)))
        }
        Err(fault) => Err(fault),
    }
}

/// The header of a list or set: the tag of its elements, and their number.
pub(crate) fn items<'a, W: Wire>(rest: Rest<'a>) -> Result<(Tag, u32, Rest<'a>), WireFault>
    ensures { AnswersExactly (λ r. ((r.0, r.1), r.2)) result (W.wire.items rest.entry) }
{
    match W::items(rest.bytes, 0) {
        Ok((tag, count, place)) => Ok((tag, count, rest.behind(place))),
        Err(fault) => Err(fault),
    }
}

/// The header of a map: the tags of its keys and of their values, and the number of its pairs.
pub(crate) fn pairs<'a, W: Wire>(rest: Rest<'a>) -> Result<(Tag, Tag, u32, Rest<'a>), WireFault>
    ensures { AnswersExactly (λ r. ((r.0, r.1, r.2), r.3)) result (W.wire.pairs rest.entry) }
{
    match W::pairs(rest.bytes, 0) {
        Ok((key, value, count, place)) => Ok((key, value, count, rest.behind(place))),
        Err(fault) => Err(fault),
    }
}

/// Passes over a value of a tag, with so many levels that may still be opened.
pub(crate) fn skip<'a, W: Wire>(
    rest: Rest<'a>,
    levels: u32,
    tag: Tag,
) -> Result<Rest<'a>, WireFault>
    requires { levels ≤ most_levels }
    ensures { AnswersExactly (λ r. r) result (passed_over (value W.wire levels tag rest.entry)) }
{
    let mut count = u64::from(MOST_VALUES) - u64::from(rest.budget);
    match W::skip(rest.bytes, 0, tag, MOST_LEVELS + 1 - levels, &mut count) {
        Ok(place) => Ok(Rest {
            bytes: rest.bytes.split_at(place).1,
            budget: (u64::from(MOST_VALUES) - count) as u32,
        }),
        Err(fault) => Err(fault),
    }
}
