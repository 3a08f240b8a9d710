//! The text of constant values.
ghost use Rattle.std.specs.Prelude.{◌≡◌, ◌++◌, ◌∷◌, [], codes, map, OnOk};
ghost use Rattle.std.specs.List.{flat_map};
ghost use Rattle.text_out.specs.Decimal.{decimal_of};
ghost use Rattle.idl_printer.specs.Printed.{escape_of, literal_text, behind_comma, value_text, values_text, pair_text, pair_behind_comma, both_texts, const_pairs_text};

use idl_parser::{ConstTree, Int};
use std::alloc::AllocError;
use text_out::decimal;

/// Appends an integer.
pub(crate) fn put_int(into: &mut Vec<u8>, int: Int) -> Result<(), AllocError>
    ensures { OnOk result (into.new.items ≡ into.old.items ++ decimal_of int.value) }
{
    decimal(into, i128::from(int.value))
}

fn put_byte(into: &mut Vec<u8>, byte: u8) -> Result<(), AllocError>
    ensures { OnOk result (into.new.items ≡ into.old.items ++ escape_of byte) }
{
    match byte {
        b'"' => into.extend_from_slice(b"\\\""),
        b'\\' => into.extend_from_slice(b"\\\\"),
        b'\n' => into.extend_from_slice(b"\\n"),
        b'\t' => into.extend_from_slice(b"\\t"),
        b'\r' => into.extend_from_slice(b"\\r"),
        _ => Ok(into.push(byte)?),
    }
}

/// Appends bytes as a literal.
#[tactic(auto, unfolding(crate::specs::Printed::literal_text))]
pub(crate) fn put_literal(into: &mut Vec<u8>, bytes: &[u8]) -> Result<(), AllocError>
    ensures { OnOk result (into.new.items ≡ into.old.items ++ literal_text bytes.now) }
{
    into.push(b'"')?;
    for byte in bytes {
        put_byte(into, *byte)?;
    }
    into.push(b'"')?;
    Ok(())
}

/// Appends a value. It recurses once a level.
#[cycle(value_printer)]
pub(crate) fn put_value(into: &mut Vec<u8>, value: &ConstTree) -> Result<(), AllocError>
    ensures { OnOk result (into.new.items ≡ into.old.items ++ value_text value.now) }
{
    match value {
        ConstTree::Int(int) => put_int(into, *int),
        ConstTree::Double(double) => into.extend_from_slice(double.text.as_slice()),
        ConstTree::Literal(literal) => put_literal(into, literal.bytes.as_slice()),
        ConstTree::Name(name) => into.extend_from_slice(name.text.as_slice()),
        ConstTree::List(_, items) => {
            into.extend_from_slice(b"[")?;
            put_values(into, items.as_slice())?;
            into.extend_from_slice(b"]")
        }
        ConstTree::Map(_, pairs) => {
            into.extend_from_slice(b"{")?;
            put_pairs(into, pairs.as_slice())?;
            into.extend_from_slice(b"}")
        }
    }
}

/// Appends a comma and a value.
#[cycle(value_printer)]
fn put_value_behind_comma(into: &mut Vec<u8>, value: &ConstTree) -> Result<(), AllocError>
    ensures { OnOk result (into.new.items ≡ into.old.items ++ behind_comma (value_text value.now)) }
{
    into.extend_from_slice(b", ")?;
    put_value(into, value)
}

/// Appends values with commas between them.
#[cycle(value_printer)]
fn put_values(into: &mut Vec<u8>, values: &[ConstTree]) -> Result<(), AllocError>
    ensures { OnOk result (into.new.items ≡ into.old.items ++ values_text values.now) }
{
    let Some((first, more)) = values.split_first() else {
        return Ok(());
    };
    put_value(into, first)?;
    for value in more {
        put_value_behind_comma(into, value)?;
    }
    Ok(())
}

/// Appends a colon and a value.
#[cycle(value_printer)]
fn put_value_behind_colon(into: &mut Vec<u8>, value: &ConstTree) -> Result<(), AllocError>
    ensures { OnOk result (into.new.items ≡ into.old.items ++ (codes ": " ++ value_text value.now)) }
{
    into.extend_from_slice(b": ")?;
    put_value(into, value)
}

/// Appends pairs with commas between them.
#[cycle(value_printer)]
fn put_pairs(into: &mut Vec<u8>, pairs: &[(ConstTree, ConstTree)]) -> Result<(), AllocError>
    ensures { OnOk result (into.new.items ≡ into.old.items ++ const_pairs_text pairs.now) }
{
    let Some((first, more)) = pairs.split_first() else {
        return Ok(());
    };
    let (key, value) = first;
    put_value(into, key)?;
    put_value_behind_colon(into, value)?;
    for (key, value) in more {
        put_value_behind_comma(into, key)?;
        put_value_behind_colon(into, value)?;
    }
    Ok(())
}
