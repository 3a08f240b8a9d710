//! Constants of one value, against a type.

ghost use Rattle.schema.specs.PlainKind.{kind_of, kind_enum};
ghost use Rattle.thrift_value.specs.Tree.{of_i8, of_i16, of_i32, of_i64, of_bytes};
ghost use Rattle.check_model.specs.Scalars.{ranged, as_uuid, truth, int_worth, double_worth, literal_worth, enum_worth};
ghost use Rattle.idl_token.specs.Uuids.{uuid_number};
ghost use Rattle.idl_const.specs.Flaws.{IsOneWorth};

use crate::doubles::{double_of, double_written};
use crate::faults::ConstFault;
use idl_token::uuid_value;
use lists::ByteText;
use schema::TypeDesc;
use std::alloc::Global;
use thrift_value::{Uuid, Value};

/// A number that is 0 or 1.
#[tactic(auto, using(thrift_value::proofs::Trees::tree_equations))]
fn truth(number: i64) -> Result<Value, ConstFault>
    ensures { IsOneWorth (truth number) result }
{
    match number {
        0 => Ok(Value::Bool(false)),
        1 => Ok(Value::Bool(true)),
        _ => Err(ConstFault::OutOfRange),
    }
}

/// A number of 8 bits.
#[tactic(auto, using(thrift_value::proofs::Trees::tree_equations))]
fn as_i8(number: i64) -> Result<Value, ConstFault>
    ensures { IsOneWorth (ranged of_i8 8 number) result }
{
    if number < -0x80 || number > 0x7f {
        return Err(ConstFault::OutOfRange);
    }
    Ok(Value::I8(number as i8))
}

/// A number of 16 bits.
#[tactic(auto, using(thrift_value::proofs::Trees::tree_equations))]
fn as_i16(number: i64) -> Result<Value, ConstFault>
    ensures { IsOneWorth (ranged of_i16 16 number) result }
{
    if number < -0x8000 || number > 0x7fff {
        return Err(ConstFault::OutOfRange);
    }
    Ok(Value::I16(number as i16))
}

/// A number of 32 bits.
#[tactic(auto, using(thrift_value::proofs::Trees::tree_equations))]
fn as_i32(number: i64) -> Result<Value, ConstFault>
    ensures { IsOneWorth (ranged of_i32 32 number) result }
{
    if number < -0x8000_0000 || number > 0x7fff_ffff {
        return Err(ConstFault::OutOfRange);
    }
    Ok(Value::I32(number as i32))
}

/// A number of 64 bits.
#[tactic(auto, using(thrift_value::proofs::Trees::tree_equations))]
fn as_i64(number: i64) -> Result<Value, ConstFault>
    ensures { IsOneWorth (ranged of_i64 64 number) result }
{
    Ok(Value::I64(number))
}

/// An integer.
#[tactic(auto, using(crate::proofs::KindsOf::kind_equations))]
pub(crate) fn int_value(kind: &TypeDesc, number: i64) -> Result<Value, ConstFault>
    ensures { IsOneWorth (int_worth (kind_of kind.now) number) result }
{
    match kind {
        TypeDesc::Bool => truth(number),
        TypeDesc::I8 => as_i8(number),
        TypeDesc::I16 => as_i16(number),
        TypeDesc::I32 => as_i32(number),
        TypeDesc::I64 => as_i64(number),
        TypeDesc::Double => double_of(number),
        TypeDesc::Enum(_) => as_i32(number),
        TypeDesc::Text
        | TypeDesc::Binary
        | TypeDesc::Uuid
        | TypeDesc::Struct(_)
        | TypeDesc::Map(_, _)
        | TypeDesc::Set(_)
        | TypeDesc::List(_) => Err(ConstFault::WrongKind),
    }
}

/// A number with a fraction or an exponent, by its bytes.
#[tactic(auto, using(crate::proofs::KindsOf::kind_equations))]
pub(crate) fn double_value(kind: &TypeDesc, text: &ByteText) -> Result<Value, ConstFault>
    ensures { IsOneWorth (double_worth (kind_of kind.now) text.now) result }
{
    match kind {
        TypeDesc::Double => double_written(text.as_slice()),
        TypeDesc::Bool
        | TypeDesc::I8
        | TypeDesc::I16
        | TypeDesc::I32
        | TypeDesc::I64
        | TypeDesc::Text
        | TypeDesc::Binary
        | TypeDesc::Uuid
        | TypeDesc::Enum(_)
        | TypeDesc::Struct(_)
        | TypeDesc::Map(_, _)
        | TypeDesc::Set(_)
        | TypeDesc::List(_) => Err(ConstFault::WrongKind),
    }
}

/// A literal.
#[tactic(auto, using(thrift_value::proofs::Trees::tree_equations, crate::proofs::KindsOf::kind_equations))]
pub(crate) fn literal_value(
    alloc: Global,
    kind: &TypeDesc,
    bytes: &ByteText,
) -> Result<Value, ConstFault>
    ensures { IsOneWorth (literal_worth (kind_of kind.now) bytes.now) result }
{
    match kind {
        TypeDesc::Text | TypeDesc::Binary => text_value(alloc, bytes),
        TypeDesc::Uuid => uuid_written(bytes),
        TypeDesc::Bool
        | TypeDesc::I8
        | TypeDesc::I16
        | TypeDesc::I32
        | TypeDesc::I64
        | TypeDesc::Double
        | TypeDesc::Enum(_)
        | TypeDesc::Struct(_)
        | TypeDesc::Map(_, _)
        | TypeDesc::Set(_)
        | TypeDesc::List(_) => Err(ConstFault::WrongKind),
    }
}

/// A text in memory of its own.
#[tactic(auto, using(thrift_value::proofs::Trees::tree_equations))]
fn text_value(alloc: Global, bytes: &ByteText) -> Result<Value, ConstFault>
    ensures { IsOneWorth (Ok (of_bytes bytes.now)) result }
{
    Ok(Value::Bytes(bytes.try_clone(alloc)?))
}

/// A uuid that a literal writes.
#[tactic(auto, using(thrift_value::proofs::Trees::tree_equations))]
fn uuid_written(bytes: &ByteText) -> Result<Value, ConstFault>
    ensures { IsOneWorth (as_uuid (uuid_number bytes.now)) result }
{
    match uuid_value(bytes.as_slice()) {
        Some(number) => Ok(Value::Uuid(Uuid::new(number))),
        None => Err(ConstFault::BadUuid),
    }
}

/// The number of a value of an enum, as one of this enum.
#[tactic(auto, using(thrift_value::proofs::Trees::tree_equations))]
fn number_of_enum(wanted: u32, which: u32, number: i64) -> Result<Value, ConstFault>
    ensures { IsOneWorth (enum_worth (kind_enum wanted) which number) result }
{
    if wanted != which {
        return Err(ConstFault::WrongKind);
    }
    if number < -0x8000_0000 || number > 0x7fff_ffff {
        return Err(ConstFault::NoMemory);
    }
    Ok(Value::I32(number as i32))
}

/// The number of a value of the enum of some number. One that passes 32 bits, which a checker refuses before, is answered as want
/// of memory where the enum is wanted.
#[tactic(auto, using(crate::proofs::KindsOf::kind_equations))]
pub(crate) fn enum_value(kind: &TypeDesc, which: u32, number: i64) -> Result<Value, ConstFault>
    ensures { IsOneWorth (enum_worth (kind_of kind.now) which number) result }
{
    match kind {
        TypeDesc::I8 => as_i8(number),
        TypeDesc::I16 => as_i16(number),
        TypeDesc::I32 => as_i32(number),
        TypeDesc::I64 => as_i64(number),
        TypeDesc::Enum(wanted) => number_of_enum(*wanted, which, number),
        TypeDesc::Bool
        | TypeDesc::Double
        | TypeDesc::Text
        | TypeDesc::Binary
        | TypeDesc::Uuid
        | TypeDesc::Struct(_)
        | TypeDesc::Map(_, _)
        | TypeDesc::Set(_)
        | TypeDesc::List(_) => Err(ConstFault::WrongKind),
    }
}
