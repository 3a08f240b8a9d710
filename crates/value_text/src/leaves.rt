//! Reads values that hold no others.
ghost use Rattle.std.specs.Prelude.{◌≡◌, MatchOption, None, Some};
ghost use Rattle.thrift_value.specs.Tree.{of_i8, of_i16, of_i32, of_i64};
ghost use Rattle.thrift_value.specs.TreeOf.{tree_of};
ghost use Rattle.value_text.specs.Answering.{Gives};
ghost use Rattle.value_text.specs.Reading.{bool_at, bytes_at, double_at, leaf_at, lettered, most_rounds, number_text_at, typed_as, typed_at, uuid_at};

use crate::form::{Leaf, greatest, is_wanted};
use crate::fronts::{hex_at, integer_at, past, quoted_at};
use crate::stop::TextStop;
use std::alloc::Global;
use thrift_value::{ByteText, Tag, Uuid, Value};

/// A number as one of 8 bits, where it is one and one may stand there.
#[tactic(auto, using(thrift_value::proofs::Trees::tree_equations))]
fn as_i8(wanted: Option<Tag>, n: i128) -> Option<Value>
    ensures { MatchOption result (typed_as wanted Tag.I8 of_i8 8 n ≡ None) (λ v. typed_as wanted Tag.I8 of_i8 8 n ≡ Some (tree_of v)) }
{
    if !is_wanted(wanted, Tag::I8) {
        return None;
    }
    if n < -0x80 || n > 0x7f {
        return None;
    }
    Some(Value::I8(n as i8))
}

/// A number as one of 16 bits.
#[tactic(auto, using(thrift_value::proofs::Trees::tree_equations))]
fn as_i16(wanted: Option<Tag>, n: i128) -> Option<Value>
    ensures { MatchOption result (typed_as wanted Tag.I16 of_i16 16 n ≡ None) (λ v. typed_as wanted Tag.I16 of_i16 16 n ≡ Some (tree_of v)) }
{
    if !is_wanted(wanted, Tag::I16) {
        return None;
    }
    if n < -0x8000 || n > 0x7fff {
        return None;
    }
    Some(Value::I16(n as i16))
}

/// A number as one of 32 bits.
#[tactic(auto, using(thrift_value::proofs::Trees::tree_equations))]
fn as_i32(wanted: Option<Tag>, n: i128) -> Option<Value>
    ensures { MatchOption result (typed_as wanted Tag.I32 of_i32 32 n ≡ None) (λ v. typed_as wanted Tag.I32 of_i32 32 n ≡ Some (tree_of v)) }
{
    if !is_wanted(wanted, Tag::I32) {
        return None;
    }
    if n < -0x8000_0000 || n > 0x7fff_ffff {
        return None;
    }
    Some(Value::I32(n as i32))
}

/// A number as one of 64 bits.
#[tactic(auto, using(thrift_value::proofs::Trees::tree_equations))]
fn as_i64(wanted: Option<Tag>, n: i128) -> Option<Value>
    ensures { MatchOption result (typed_as wanted Tag.I64 of_i64 64 n ≡ None) (λ v. typed_as wanted Tag.I64 of_i64 64 n ≡ Some (tree_of v)) }
{
    if !is_wanted(wanted, Tag::I64) {
        return None;
    }
    if n < -0x8000_0000_0000_0000 || n > 0x7fff_ffff_ffff_ffff {
        return None;
    }
    Some(Value::I64(n as i64))
}

/// A number of the type that a letter tells, where it is one and one may stand there.
#[tactic(auto, unfolding(crate::specs::Reading::lettered))]
fn lettered(wanted: Option<Tag>, letter: u8, n: i128) -> Option<Value>
    ensures { MatchOption result (lettered wanted letter n ≡ None) (λ v. lettered wanted letter n ≡ Some (tree_of v)) }
{
    match letter {
        b'b' => as_i8(wanted, n),
        b's' => as_i16(wanted, n),
        b'i' => as_i32(wanted, n),
        b'l' => as_i64(wanted, n),
        _ => None,
    }
}

/// A number whose letter stands in front.
#[tactic(auto, unfolding(crate::specs::Reading::typed_at))]
fn typed_at(wanted: Option<Tag>, n: i128, text: &[u8]) -> Result<(Value, &[u8]), TextStop>
    ensures { Gives (λ r. (tree_of r.0, r.1.now)) result (typed_at wanted n text.now) }
{
    let [letter, rest @ ..] = text else {
        return Err(TextStop::Left(0));
    };
    let Some(value) = lettered(wanted, *letter, n) else {
        return Err(TextStop::Left(text.len()));
    };
    Ok((value, rest))
}

/// An integer and the letter of its type.
#[tactic(auto, unfolding(crate::specs::Reading::number_text_at))]
fn number_at(wanted: Option<Tag>, text: &[u8]) -> Result<(Value, &[u8]), TextStop>
    ensures { Gives (λ r. (tree_of r.0, r.1.now)) result (number_text_at wanted text.now) }
{
    let (n, rest) = integer_at(greatest(wanted), text)?;
    typed_at(wanted, n, rest)
}

/// A bool's word.
#[tactic(auto, unfolding(crate::specs::Reading::bool_at), using(thrift_value::proofs::Trees::tree_equations))]
fn bool_at<'a>(truth: bool, word: &[u8], text: &'a [u8]) -> Result<(Value, &'a [u8]), TextStop>
    ensures { Gives (λ r. (tree_of r.0, r.1.now)) result (bool_at truth word.now text.now) }
{
    let rest = past(word, text)?;
    Ok((Value::Bool(truth), rest))
}

/// A double.
#[tactic(auto, unfolding(crate::specs::Reading::double_at), using(thrift_value::proofs::Trees::tree_equations))]
fn double_at(text: &[u8]) -> Result<(Value, &[u8]), TextStop>
    ensures { Gives (λ r. (tree_of r.0, r.1.now)) result (double_at text.now) }
{
    let digits = past(b"d", text)?;
    let (bytes, rest) = hex_at::<8>(digits)?;
    Ok((Value::Double(u64::from_be_bytes(bytes)), rest))
}

/// A uuid.
#[tactic(auto, unfolding(crate::specs::Reading::uuid_at), using(thrift_value::proofs::Trees::tree_equations))]
fn uuid_at(text: &[u8]) -> Result<(Value, &[u8]), TextStop>
    ensures { Gives (λ r. (tree_of r.0, r.1.now)) result (uuid_at text.now) }
{
    let digits = past(b"u", text)?;
    let (bytes, rest) = hex_at::<16>(digits)?;
    let number = u128::from_be_bytes(bytes);
    Ok((Value::Uuid(Uuid::new(number)), rest))
}

/// Bytes between quotation marks.
#[tactic(auto, unfolding(crate::specs::Reading::bytes_at), using(thrift_value::proofs::Trees::tree_equations))]
fn bytes_at(alloc: Global, text: &[u8]) -> Result<(Value, &[u8]), TextStop>
    ensures { Gives (λ r. (tree_of r.0, r.1.now)) result (bytes_at most_rounds text.now) }
{
    let inside = past(b"\"", text)?;
    let (bytes, rest) = quoted_at(alloc, inside)?;
    Ok((Value::Bytes(ByteText::new(bytes)), rest))
}

/// A value that holds no others.
pub(crate) fn leaf_at(
    alloc: Global,
    wanted: Option<Tag>,
    leaf: Leaf,
    text: &[u8],
) -> Result<(Value, &[u8]), TextStop>
    ensures { Gives (λ r. (tree_of r.0, r.1.now)) result (leaf_at most_rounds wanted leaf text.now) }
{
    match leaf {
        Leaf::Yes => bool_at(true, b"true", text),
        Leaf::No => bool_at(false, b"false", text),
        Leaf::Number => number_at(wanted, text),
        Leaf::Double => double_at(text),
        Leaf::Uuid => uuid_at(text),
        Leaf::Quoted => bytes_at(alloc, text),
    }
}
