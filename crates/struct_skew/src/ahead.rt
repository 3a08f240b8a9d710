//! What is still to be read, and the parts of a value in front of it. A fault isn't told.
ghost use Rattle.std.specs.Prelude.{◌≡◌, ◌≤◌, length, IfSome, Ok};
ghost use Rattle.limits.specs.Limits.{most_values};
ghost use Rattle.thrift_value.specs.TreeOf.{tree_of};
ghost use Rattle.wire_model.specs.AtPlace.{head_of, left_at};
ghost use Rattle.wire_model.specs.Decoder.{count_value};
ghost use Rattle.wire_model.specs.Wire.{IsScalar};
ghost use Rattle.wire_num.specs.Encoded.{AreByteSized};

use limits::MOST_VALUES;
use std::marker::Model;
use thrift_value::{Tag, Value};
use wire_model::{FieldHead, Wire};

/// The bytes that are still to be read, from a place on, and how many more values may come.
#[derive(Drop)]
pub(crate) struct Ahead<'a> {
    bytes: &'a [u8],
    at: usize,
    budget: u32,
    ghost within: { at ≤ length bytes.now },
}

impl<'a> Model for Ahead<'a> {
    ghost use Rattle.wire_model.specs.AtPlace as places;
    ghost use Rattle.wire_model.specs.Decoder as decoder;

    ghost Value = { decoder.Unread };

    ghost view = { λ r. places.left_at r.bytes.now r.at r.budget };
}

impl<'a> Ahead<'a> {
    /// The bytes from a place on, of at most 4,000,000 values.
    pub(crate) fn new(bytes: &'a [u8], at: usize) -> Self
        requires { at ≤ length bytes.now }
        ensures { result ≡ left_at bytes.now at most_values }
    {
        Ahead {
            bytes,
            at,
            budget: MOST_VALUES,
        }
    }

    /// How many bytes are left.
    #[inline(always)]
    pub(crate) fn len(&self) -> usize
        ensures { result ≡ length self.now.bytes }
    {
        self.bytes.len() - self.at
    }

    /// The bytes that are left are below 256.
    #[inline(always)]
    pub(crate) fn are_bytes(&self)
        ensures { AreByteSized self.now.bytes }
    {
        let (_, behind) = self.bytes.split_at(self.at);
        fit(behind);
    }

    /// Counts one more value, if one may come.
    #[inline(always)]
    pub(crate) fn count_value(&mut self) -> Option<()>
        ensures { IfSome result (λ _. count_value self.old ≡ Ok (tt, self.new)) }
    {
        if self.budget == 0 {
            return None;
        }
        self.budget -= 1;
        Some(())
    }
}

/// Bytes are below 256.
#[inline(always)]
fn fit(bytes: &[u8])
    ensures { AreByteSized bytes.now }
{}

/// The head of a field behind the field `last`.
#[inline(always)]
pub(crate) fn field<'a, W: Wire>(ahead: &mut Ahead<'a>, last: i16) -> Option<FieldHead>
    ensures { IfSome result (λ head. W.wire.field last ahead.old ≡ Ok (head_of head, ahead.new)) }
{
    match W::field(ahead.bytes, ahead.at, last) {
        Ok((head, behind)) => {
            ahead.at = behind;
            Some(head)
        }
        Err(_) => None,
    }
}

/// A number or a bool.
#[inline(always)]
pub(crate) fn scalar<'a, W: Wire>(ahead: &mut Ahead<'a>, tag: Tag) -> Option<Value>
    requires { IsScalar tag }
    ensures { IfSome result (λ value. W.wire.scalar tag ahead.old ≡ Ok (tree_of value, ahead.new)) }
{
    match W::scalar(ahead.bytes, ahead.at, tag) {
        Ok((value, behind)) => {
            ahead.at = behind;
            Some(value)
        }
        Err(_) => None,
    }
}

/// The bytes of a text.
#[inline(always)]
pub(crate) fn span<'a, W: Wire>(ahead: &mut Ahead<'a>) -> Option<&'a [u8]>
    ensures { IfSome result (λ text. W.wire.span ahead.old ≡ Ok (text.now, ahead.new)) }
{
    match W::span(ahead.bytes, ahead.at) {
        Ok((begin, behind)) => {
            let (front, _) = ahead.bytes.split_at(behind);
            let (_, text) = front.split_at(begin);
            ahead.at = behind;
            Some(text)
        }
        Err(_) => None,
    }
}

/// The header of a list or set: the tag of its elements, and their number.
#[inline(always)]
pub(crate) fn items<'a, W: Wire>(ahead: &mut Ahead<'a>) -> Option<(Tag, u32)>
    ensures { IfSome result (λ r. W.wire.items ahead.old ≡ Ok ((r.0, r.1), ahead.new)) }
{
    match W::items(ahead.bytes, ahead.at) {
        Ok((tag, count, behind)) => {
            ahead.at = behind;
            Some((tag, count))
        }
        Err(_) => None,
    }
}

/// The header of a map: the tags of its keys and of their values, and the number of its pairs.
#[inline(always)]
pub(crate) fn pairs<'a, W: Wire>(ahead: &mut Ahead<'a>) -> Option<(Tag, Tag, u32)>
    ensures { IfSome result (λ r. W.wire.pairs ahead.old ≡ Ok ((r.0, r.1, r.2), ahead.new)) }
{
    match W::pairs(ahead.bytes, ahead.at) {
        Ok((key, value, count, behind)) => {
            ahead.at = behind;
            Some((key, value, count))
        }
        Err(_) => None,
    }
}
