//! The parts of a value at a place of bytes, and a value passed over there: what a codec reads in front, with places in place of
//! inputs. An impl of [`wire_model::Wire`] hands these on.

ghost use Rattle.std.specs.Prelude.{◌≡◌, ◌≤◌, ◌+◌, ◌-◌, Bool, length, take, drop, Ok, IfOk, OnOk};
ghost use Rattle.thrift_value.specs.Measures.{count_of};
ghost use Rattle.thrift_value.specs.Tree.{Tree};
ghost use Rattle.thrift_value.specs.TreeOf.{tree_of};
ghost use Rattle.wire_model.specs.Answering.{AnswersExactly};
ghost use Rattle.wire_model.specs.AtPlace.{ReadsPartAt, HasFlag, left_at, head_of, passed_over};
ghost use Rattle.wire_model.specs.Decoder.{Unread};
ghost use Rattle.wire_model.specs.Place.{most_levels, most_values};
ghost use Rattle.wire_model.specs.Protocol.{IsFlaggedBy};
ghost use Rattle.wire_model.specs.Reading.{value};
ghost use Rattle.wire_model.specs.Wire.{IsScalar};
ghost use Rattle.wire_walk.specs.Steps.{field_header_of};

use crate::codec::Codec;
use crate::header::Header;
use crate::input::Input;
use crate::passing::skip;
use limits::{MOST_LEVELS, MOST_VALUES};
use thrift_value::{Tag, Value, WireFault};
use wire_model::FieldHead;
use wire_model::laws::value_read_is_spelled;

/// The head of a field behind the field `last`.
pub fn field_at<C: Codec>(
    bytes: &[u8],
    at: usize,
    last: i16,
) -> Result<(FieldHead, usize), WireFault>
    requires { at ≤ length bytes.now }
    ensures read { ReadsPartAt (λ r. head_of r.0) (λ r. r.1) (C.wire.field last) bytes.now at result }
    ensures flag { IfOk result (λ r. HasFlag C.encoder.flags r.0) }
    ensures behind { IfOk result (λ r. r.1 ≤ length bytes.now) }
{
    C::parts_agree();
    let (header, rest) = C::field(last, input_at(bytes, at, 0))?;
    let behind = place_of(bytes, &rest);
    Ok((head_of(header), behind))
}

/// A number or a bool.
pub fn scalar_at<C: Codec>(bytes: &[u8], at: usize, tag: Tag) -> Result<(Value, usize), WireFault>
    requires within { at ≤ length bytes.now }
    requires tag { IsScalar tag }
    ensures read { ReadsPartAt (λ r. tree_of r.0) (λ r. r.1) (C.wire.scalar tag) bytes.now at result }
    ensures behind { IfOk result (λ r. r.1 ≤ length bytes.now) }
{
    C::parts_agree();
    let (value, rest) = C::scalar(tag, input_at(bytes, at, 0))?;
    let behind = place_of(bytes, &rest);
    Ok((value, behind))
}

/// A text: where its bytes begin, and the place behind them.
pub fn span_at<C: Codec>(bytes: &[u8], at: usize) -> Result<(usize, usize), WireFault>
    requires { at ≤ length bytes.now }
    ensures read { ReadsPartAt (λ r. take (r.1 - r.0) (drop r.0 bytes.now)) (λ r. r.1) C.wire.span bytes.now at result }
    ensures behind { IfOk result (λ r. (r.0 ≤ r.1) × (r.1 ≤ length bytes.now)) }
{
    C::parts_agree();
    let (text, rest) = C::span(input_at(bytes, at, 0))?;
    let behind = place_of(bytes, &rest);
    Ok((behind - text.len(), behind))
}

/// The header of a list or set.
pub fn items_at<C: Codec>(bytes: &[u8], at: usize) -> Result<(Tag, u32, usize), WireFault>
    requires { at ≤ length bytes.now }
    ensures read { ReadsPartAt (λ r. (r.0, r.1)) (λ r. r.2) C.wire.items bytes.now at result }
    ensures behind { IfOk result (λ r. r.2 ≤ length bytes.now) }
{
    C::parts_agree();
    let (element, count, rest) = C::items(input_at(bytes, at, 0))?;
    let behind = place_of(bytes, &rest);
    Ok((element, count as u32, behind))
}

/// The header of a map.
pub fn pairs_at<C: Codec>(bytes: &[u8], at: usize) -> Result<(Tag, Tag, u32, usize), WireFault>
    requires { at ≤ length bytes.now }
    ensures read { ReadsPartAt (λ r. (r.0, r.1, r.2)) (λ r. r.3) C.wire.pairs bytes.now at result }
    ensures behind { IfOk result (λ r. r.3 ≤ length bytes.now) }
{
    C::parts_agree();
    let (key, value, count, rest) = C::pairs(input_at(bytes, at, 0))?;
    let behind = place_of(bytes, &rest);
    Ok((key, value, count as u32, behind))
}

/// The place behind a value of a tag, which has this level if it is a struct or container; it is counted.
pub fn skip_at<C: Codec>(
    bytes: &[u8],
    at: usize,
    tag: Tag,
    level: u32,
    count: &mut u64,
) -> Result<usize, WireFault>
    requires within { at ≤ length bytes.now }
    requires level { (1 ≤ level) × (level ≤ most_levels + 1) }
    requires few { count.old ≤ most_values }
    ensures skipped { AnswersExactly (λ place. left_at bytes.now place (most_values - count.new)) result
        (passed_over (value C.wire (most_levels + 1 - level) tag (left_at bytes.now at (most_values - count.old)))) }
    ensures grown { OnOk result ((x : Tree) (after : Unread)
        → value C.wire (most_levels + 1 - level) tag (left_at bytes.now at (most_values - count.old)) ≡ Ok (x, after)
        → count.new ≡ count.old + count_of x) }
    ensures behind { IfOk result (λ place. place ≤ length bytes.now) }
    ensures few { OnOk result (count.new ≤ most_values) }
{
    let counted = *count as u32;
    let (behind, left) = skip_left::<C>(
        bytes,
        at,
        tag,
        MOST_LEVELS + 1 - level,
        MOST_VALUES - counted,
    )?;
    *count = u64::from(MOST_VALUES - left);
    Ok(behind)
}

/// The same, by the levels that may still be opened and the values that may still come.
fn skip_left<C: Codec>(
    bytes: &[u8],
    at: usize,
    tag: Tag,
    levels: u32,
    budget: u32,
) -> Result<(usize, u32), WireFault>
    requires { at ≤ length bytes.now }
    ensures skipped { AnswersExactly (λ r. left_at bytes.now r.0 r.1) result
        (passed_over (value C.wire levels tag (left_at bytes.now at budget))) }
    ensures counted { IfOk result (λ r. (x : Tree) (after : Unread)
        → value C.wire levels tag (left_at bytes.now at budget) ≡ Ok (x, after) → count_of x + r.1 ≡ budget) }
    ensures behind { IfOk result (λ r. r.0 ≤ length bytes.now) }
    ensures fewer { IfOk result (λ r. r.1 ≤ budget) }
{
    value_read_is_spelled::<C>();
    let rest = skip::<C>(input_at(bytes, at, budget), levels, tag)?;
    let behind = place_of(bytes, &rest);
    Ok((behind, rest.budget()))
}

/// What is left from a place on, where so many values may still come.
fn input_at(bytes: &[u8], at: usize, budget: u32) -> Input<'_>
    requires { at ≤ length bytes.now }
    ensures { result ≡ left_at bytes.now at budget }
{
    let (_, behind) = bytes.split_at(at);
    Input::new(behind, budget)
}

/// The place at which what is left begins.
fn place_of(bytes: &[u8], rest: &Input<'_>) -> usize
    requires { length rest.now.bytes ≤ length bytes.now }
    ensures { result ≡ length bytes.now - length rest.now.bytes }
{
    bytes.len() - rest.bytes().len()
}

/// The head that a header is.
fn head_of(header: Header) -> FieldHead
    ensures head { head_of result ≡ field_header_of header }
    ensures flag { (flags : Bool) → IsFlaggedBy flags (field_header_of header) → HasFlag flags result }
{
    match header {
        Header::Stop => FieldHead::Stop,
        Header::Field(id, tag) => FieldHead::Field {
            id,
            tag,
            flag: None,
        },
        Header::Flag(id, flag) => FieldHead::Field {
            id,
            tag: Tag::Bool,
            flag: Some(flag),
        },
    }
}
