//! The text of fields.
ghost use Rattle.std.specs.Prelude.{◌≡◌, ◌++◌, map, OnOk};
ghost use Rattle.std.specs.Option.{option_copied};
ghost use Rattle.idl_printer.specs.Printed.{maybe_text, id_text, need_text, default_text, typed_text, field_text, field_line, field_lines, behind_comma, separated, arguments_text};

use crate::type_printer::{put_spaced_word, put_type};
use crate::value_printer::{put_int, put_value};
use idl_parser::{ConstTree, Field, Int, Need};
use idl_token::Terminal;
use std::alloc::AllocError;

fn put_id(into: &mut Vec<u8>, id: Option<Int>) -> Result<(), AllocError>
    ensures { OnOk result (into.new.items ≡ into.old.items ++ maybe_text id_text id) }
{
    match id {
        Some(id) => {
            put_int(into, id)?;
            into.extend_from_slice(b": ")
        }
        None => Ok(()),
    }
}

fn put_need(into: &mut Vec<u8>, need: Need) -> Result<(), AllocError>
    ensures { OnOk result (into.new.items ≡ into.old.items ++ need_text need) }
{
    match need {
        Need::Default => Ok(()),
        Need::Required => put_spaced_word(into, Terminal::Required),
        Need::Optional => put_spaced_word(into, Terminal::Optional),
    }
}

fn put_default(into: &mut Vec<u8>, default: Option<&ConstTree>) -> Result<(), AllocError>
    ensures { OnOk result (into.new.items ≡ into.old.items ++ maybe_text default_text (option_copied default.entry)) }
{
    match default {
        Some(value) => {
            into.extend_from_slice(b" = ")?;
            put_value(into, value)
        }
        None => Ok(()),
    }
}

#[tactic(auto, unfolding(crate::specs::Printed::typed_text))]
fn put_typed(into: &mut Vec<u8>, field: &Field) -> Result<(), AllocError>
    ensures { OnOk result (into.new.items ≡ into.old.items ++ typed_text field.now) }
{
    put_type(into, &field.kind)?;
    into.extend_from_slice(b" ")?;
    into.extend_from_slice(field.name.text.as_slice())?;
    put_default(into, field.default.as_ref())
}

#[tactic(auto, unfolding(crate::specs::Printed::field_text))]
fn put_field(into: &mut Vec<u8>, field: &Field) -> Result<(), AllocError>
    ensures { OnOk result (into.new.items ≡ into.old.items ++ field_text field.now) }
{
    put_id(into, field.id)?;
    put_need(into, field.need)?;
    put_typed(into, field)
}

fn put_field_line(into: &mut Vec<u8>, field: &Field) -> Result<(), AllocError>
    ensures { OnOk result (into.new.items ≡ into.old.items ++ field_line field.now) }
{
    into.extend_from_slice(b"  ")?;
    put_field(into, field)?;
    into.extend_from_slice(b"\n")
}

/// Appends fields, each on a line of its own.
pub(crate) fn put_field_lines(into: &mut Vec<u8>, fields: &[Field]) -> Result<(), AllocError>
    ensures { OnOk result (into.new.items ≡ into.old.items ++ field_lines fields.now) }
{
    for field in fields {
        put_field_line(into, field)?;
    }
    Ok(())
}

fn put_behind_comma(into: &mut Vec<u8>, field: &Field) -> Result<(), AllocError>
    ensures { OnOk result (into.new.items ≡ into.old.items ++ behind_comma (field_text field.now)) }
{
    into.extend_from_slice(b", ")?;
    put_field(into, field)
}

fn put_separated(into: &mut Vec<u8>, fields: &[Field]) -> Result<(), AllocError>
    ensures { OnOk result (into.new.items ≡ into.old.items ++ separated (map field_text fields.now)) }
{
    let Some((first, more)) = fields.split_first() else {
        return Ok(());
    };
    put_field(into, first)?;
    for field in more {
        put_behind_comma(into, field)?;
    }
    Ok(())
}

/// Appends fields in parentheses.
pub(crate) fn put_arguments(into: &mut Vec<u8>, fields: &[Field]) -> Result<(), AllocError>
    ensures { OnOk result (into.new.items ≡ into.old.items ++ arguments_text fields.now) }
{
    into.extend_from_slice(b"(")?;
    put_separated(into, fields)?;
    into.extend_from_slice(b")")
}
