//! Writing a value: level by level, from left to right.

ghost use Rattle.std.specs.Prelude.{◌≡◌, ◌<◌, ◌^◌, ◌++◌, All, length, map, pos, OnOk, OnErr};
ghost use Rattle.thrift_value.specs.Ranges.{IsInRange, AreFieldsInRange, AreItemsInRange, ArePairsInRange};
ghost use Rattle.thrift_value.specs.Tags.{tag_of};
ghost use Rattle.thrift_value.specs.TreeOf.{tree_of, field_tree, pair_tree, field_trees, item_trees, pair_trees};
ghost use Rattle.wire_model.specs.Encoder.{text, fields_text, items_text, pairs_text, heading, behind_heading};
ghost use Rattle.thrift_value.specs.Sizes.{HasSmallSizes, HaveFieldsSmallSizes, HaveItemsSmallSizes, HavePairsSmallSizes};
ghost use Rattle.wire_model.specs.Wire.{IsScalar};
ghost use Rattle.wire_walk.specs.Steps.{field_header_of, Grows, OnBehind};

use crate::codec::Codec;
use crate::header::Header;
use std::alloc::AllocError;
use thrift_value::{ByteText, Tag, Value};

/// Appends a value, and tells that each number in it fits its type. It recurses once a level. Where memory runs out, a part of it
/// may have been appended.
#[cycle(writing)]
#[inline(always)]
pub fn put<C: Codec>(value: &Value, into: &mut Vec<u8>) -> Result<(), AllocError>
    requires { HasSmallSizes (tree_of value.now) }
    ensures ok { OnOk result (into.new.items ≡ into.old.items ++ text C.encoder (tree_of value.now)) }
    ensures in_range { OnOk result (IsInRange (tree_of value.now)) }
    ensures err { OnErr result (Grows into.old.items into.new.items) }
{
    match value {
        Value::Bytes(text) => put_text::<C>(text, into),
        Value::Struct(fields) => put_fields::<C>(fields.as_slice(), into),
        Value::Map(key, value, pairs) => put_pairs::<C>(*key, *value, pairs.as_slice(), into),
        Value::Set(element, items) => put_items::<C>(*element, items.as_slice(), into),
        Value::List(element, items) => put_items::<C>(*element, items.as_slice(), into),
        Value::Bool(_)
        | Value::I8(_)
        | Value::I16(_)
        | Value::I32(_)
        | Value::I64(_)
        | Value::Double(_)
        | Value::Uuid(_) => put_number::<C>(value, into),
    }
}

/// Appends a text.
fn put_text<C: Codec>(text: &ByteText, into: &mut Vec<u8>) -> Result<(), AllocError>
    requires { length text.now < 2 ^ 31 }
    ensures ok { OnOk result (into.new.items ≡ into.old.items ++ C.encoder.span text.now) }
    ensures in_range { All (λ b. b < 256) text.now }
    ensures err { OnErr result (Grows into.old.items into.new.items) }
{
    text.numbers_fit();
    C::put_span(text.as_slice(), into)
}

/// Appends a number or a bool.
fn put_number<C: Codec>(value: &Value, into: &mut Vec<u8>) -> Result<(), AllocError>
    requires { IsScalar (tag_of (tree_of value.now)) }
    ensures ok { OnOk result (into.new.items ≡ into.old.items ++ C.encoder.scalar (tree_of value.now)) }
    ensures in_range { IsInRange (tree_of value.now) }
    ensures err { OnErr result (Grows into.old.items into.new.items) }
{
    number_fits(value);
    C::put_scalar(value, into)
}

/// Makes it known to a proof that the number which this value is fits its type: each is read once, which tells its range.
#[tactic(auto, using(thrift_value::proofs::Trees::tree_equations))]
fn number_fits(value: &Value)
    requires { IsScalar (tag_of (tree_of value.now)) }
    ensures { IsInRange (tree_of value.now) }
{
    match value {
        Value::I8(n) => {
            let _number = *n;
        }
        Value::I16(n) => {
            let _number = *n;
        }
        Value::I32(n) => {
            let _number = *n;
        }
        Value::I64(n) => {
            let _number = *n;
        }
        Value::Double(bits) => {
            let _number = *bits;
        }
        Value::Uuid(uuid) => {
            let _number = uuid.number();
        }
        Value::Bool(_) | Value::Bytes(_) | Value::Struct(_) | Value::Map(_, _, _) => {}
        Value::Set(_, _) | Value::List(_, _) => {}
    }
}

/// Appends the fields of a struct, and its end.
#[cycle(writing)]
#[inline(never)]
fn put_fields<C: Codec>(fields: &[(i16, Value)], into: &mut Vec<u8>) -> Result<(), AllocError>
    requires { HaveFieldsSmallSizes (field_trees (map field_tree fields.now)) }
    ensures ok { OnOk result
        (into.new.items ≡ into.old.items ++ fields_text C.encoder (pos 0) (field_trees (map field_tree fields.now))) }
    ensures in_range { OnOk result (AreFieldsInRange (field_trees (map field_tree fields.now))) }
    ensures err { OnErr result (Grows into.old.items into.new.items) }
{
    let mut last = 0;
    for (id, value) in fields {
        let header = header_of::<C>(*id, value);
        C::put_header(last, header, into)?;
        put_behind::<C>(header, value, into)?;
        last = *id;
    }
    C::put_header(last, Header::Stop, into)
}

/// The header of a field.
fn header_of<C: Codec>(id: i16, value: &Value) -> Header
    ensures { field_header_of result ≡ heading C.encoder.flags id (tree_of value.now) }
{
    match value {
        Value::Bool(flag) => {
            if C::flags() {
                Header::Flag(id, *flag)
            } else {
                Header::Field(id, Tag::Bool)
            }
        }
        _ => Header::Field(id, value.tag()),
    }
}

/// Appends what stands behind a field's header: its value, unless the header has it.
#[cycle(writing)]
#[inline(always)]
fn put_behind<C: Codec>(header: Header, value: &Value, into: &mut Vec<u8>) -> Result<(), AllocError>
    requires { HasSmallSizes (tree_of value.now) }
    ensures ok { OnOk result
        (into.new.items ≡ into.old.items ++ behind_heading (field_header_of header) (text C.encoder (tree_of value.now))) }
    ensures in_range { OnOk result (OnBehind (field_header_of header) (IsInRange (tree_of value.now))) }
    ensures err { OnErr result (Grows into.old.items into.new.items) }
{
    match header {
        Header::Field(_, _) => put::<C>(value, into),
        Header::Flag(_, _) | Header::Stop => Ok(()),
    }
}

/// Appends the header of a list or set, and its values, one behind the other.
#[cycle(writing)]
#[inline(never)]
fn put_items<C: Codec>(element: Tag, items: &[Value], into: &mut Vec<u8>) -> Result<(), AllocError>
    requires few { length items.now < 2 ^ 31 }
    requires small { HaveItemsSmallSizes (item_trees (map tree_of items.now)) }
    ensures ok { OnOk result (into.new.items ≡ into.old.items
        ++ (C.encoder.items element (length items.now) ++ items_text C.encoder (item_trees (map tree_of items.now)))) }
    ensures in_range { OnOk result (AreItemsInRange (item_trees (map tree_of items.now))) }
    ensures err { OnErr result (Grows into.old.items into.new.items) }
{
    C::put_items(element, items.len(), into)?;
    for value in items {
        put::<C>(value, into)?;
    }
    Ok(())
}

/// Appends the header of a map, and its pairs, each a key and its value, one behind the other.
#[cycle(writing)]
#[inline(never)]
fn put_pairs<C: Codec>(
    key: Tag,
    value: Tag,
    pairs: &[(Value, Value)],
    into: &mut Vec<u8>,
) -> Result<(), AllocError>
    requires few { length pairs.now < 2 ^ 31 }
    requires small { HavePairsSmallSizes (pair_trees (map pair_tree pairs.now)) }
    ensures ok { OnOk result (into.new.items ≡ into.old.items
        ++ (C.encoder.pairs key value (length pairs.now) ++ pairs_text C.encoder (pair_trees (map pair_tree pairs.now)))) }
    ensures in_range { OnOk result (ArePairsInRange (pair_trees (map pair_tree pairs.now))) }
    ensures err { OnErr result (Grows into.old.items into.new.items) }
{
    C::put_pairs(key, value, pairs.len(), into)?;
    for (key, value) in pairs {
        put::<C>(key, into)?;
        put::<C>(value, into)?;
    }
    Ok(())
}
