//! The text of fields.
ghost use Rattle.std.specs.Prelude.{◌≡◌, ◌++◌, codes, map, OnOk};
ghost use Rattle.std.specs.List.{flat_map};
ghost use Rattle.std.specs.Option.{option_map, option_copied};
ghost use Rattle.thrift_value.specs.TreeOf.{tree_of};
ghost use Rattle.schema.specs.SchemaOf.{schema_of, plain_field};
ghost use Rattle.schema.specs.Shapes.{joined};
ghost use Rattle.schema.specs.SchemaText.{need_word, default_part, front_part, field_in_text, field_line_of, fields_in_text};

use crate::types::{FieldDesc, FieldNeed, Schema};
use crate::types_text::put_kind;
use limits::MOST_TYPE_LEVELS;
use std::alloc::AllocError;
use text_out::decimal;
use thrift_value::Value;
use value_text::put_value;

/// What is said of a field's presence.
fn need_word(need: FieldNeed) -> &'static str
    ensures { result.now ≡ need_word need }
{
    match need {
        FieldNeed::Default => "default",
        FieldNeed::Required => "required",
        FieldNeed::Optional => "optional",
    }
}

fn put_default(into: &mut Vec<u8>, default: Option<&Value>) -> Result<(), AllocError>
    ensures { OnOk result (into.new.items ≡ into.old.items ++ default_part (option_map tree_of (option_copied default.entry))) }
{
    match default {
        Some(value) => {
            into.extend_from_slice(b" = ")?;
            put_value(into, value)
        }
        None => Ok(()),
    }
}

/// Appends a field's id and what is said of its presence.
fn put_front(into: &mut Vec<u8>, field: &FieldDesc) -> Result<(), AllocError>
    ensures { OnOk result (into.new.items ≡ into.old.items ++ front_part (plain_field field.now)) }
{
    decimal(into, i128::from(field.id))?;
    into.extend_from_slice(b" ")?;
    into.extend_from_slice(need_word(field.need).as_bytes())?;
    into.extend_from_slice(b" ")
}

/// Appends a field.
#[tactic(auto, unfolding(crate::specs::SchemaText::field_in_text))]
fn put_field(into: &mut Vec<u8>, schema: &Schema, field: &FieldDesc) -> Result<(), AllocError>
    ensures { OnOk result (into.new.items ≡ into.old.items ++ field_in_text (schema_of schema.now) (plain_field field.now)) }
{
    put_front(into, field)?;
    put_kind(into, schema, &field.kind, MOST_TYPE_LEVELS)?;
    into.extend_from_slice(b" ")?;
    into.extend_from_slice(field.name.as_slice())?;
    put_default(into, field.default.as_ref())
}

fn put_field_line(into: &mut Vec<u8>, schema: &Schema, field: &FieldDesc) -> Result<(), AllocError>
    ensures { OnOk result (into.new.items ≡ into.old.items ++ field_line_of (schema_of schema.now) (plain_field field.now)) }
{
    into.extend_from_slice(b"  ")?;
    put_field(into, schema, field)?;
    into.extend_from_slice(b"\n")
}

/// Appends fields, each on a line of its own.
pub(crate) fn put_field_lines(
    into: &mut Vec<u8>,
    schema: &Schema,
    fields: &[FieldDesc],
) -> Result<(), AllocError>
    ensures { OnOk result (into.new.items ≡ into.old.items
        ++ flat_map (field_line_of (schema_of schema.now)) (map plain_field fields.now)) }
{
    for field in fields {
        put_field_line(into, schema, field)?;
    }
    Ok(())
}

fn put_behind_comma(
    into: &mut Vec<u8>,
    schema: &Schema,
    field: &FieldDesc,
) -> Result<(), AllocError>
    ensures { OnOk result (into.new.items ≡ into.old.items ++ (codes ", " ++ field_in_text (schema_of schema.now) (plain_field field.now))) }
{
    into.extend_from_slice(b", ")?;
    put_field(into, schema, field)
}

fn put_separated(
    into: &mut Vec<u8>,
    schema: &Schema,
    fields: &[FieldDesc],
) -> Result<(), AllocError>
    ensures { OnOk result (into.new.items ≡ into.old.items
        ++ joined (codes ", ") (map (field_in_text (schema_of schema.now)) (map plain_field fields.now))) }
{
    let Some((first, more)) = fields.split_first() else {
        return Ok(());
    };
    put_field(into, schema, first)?;
    for field in more {
        put_behind_comma(into, schema, field)?;
    }
    Ok(())
}

/// Appends fields in parentheses.
pub(crate) fn put_fields(
    into: &mut Vec<u8>,
    schema: &Schema,
    fields: &[FieldDesc],
) -> Result<(), AllocError>
    ensures { OnOk result (into.new.items ≡ into.old.items ++ fields_in_text (schema_of schema.now) (map plain_field fields.now)) }
{
    into.extend_from_slice(b"(")?;
    put_separated(into, schema, fields)?;
    into.extend_from_slice(b")")
}
