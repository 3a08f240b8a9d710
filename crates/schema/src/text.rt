//! The text of a schema.
ghost use Rattle.std.specs.Prelude.{◌≡◌, ◌++◌, ℤ, List, ℕ, codes, map, OnOk, IfOk};
ghost use Rattle.std.specs.List.{flat_map};
ghost use Rattle.schema.specs.PlainKind.{kind_of};
ghost use Rattle.schema.specs.SchemaOf.{schema_of, plain_alias, plain_constant, plain_enum, plain_file, plain_struct};
ghost use Rattle.schema.specs.SchemaText.{alias_in_text, constant_in_text, def_in_text, enum_in_text, enum_value_part, file_in_text, kind_name, schema_text, struct_in_text, struct_word_part, text_at};
ghost use Rattle.schema.specs.Sound.{IsSound};

use crate::fields_text::put_field_lines;
use crate::services_text::put_service;
use crate::types::{
    AliasDesc, ConstDesc, DefRef, EnumDesc, FieldsKind, FileDesc, Schema, StructDesc, TypeDesc,
};
use crate::types_text::{at, put_kind};
use limits::MOST_TYPE_LEVELS;
use std::alloc::{AllocError, Global};
use text_out::{decimal, line};
use thrift_value::ByteText;
use value_text::put_value;

/// Appends a word, a name, a blank and a type.
fn put_typed(
    into: &mut Vec<u8>,
    schema: &Schema,
    word: &[u8],
    name: &[u8],
    kind: &TypeDesc,
) -> Result<(), AllocError>
    ensures { OnOk result (into.new.items ≡ into.old.items
        ++ (word.now ++ (name.now ++ (codes " " ++ kind_name (schema_of schema.now) (kind_of kind.now))))) }
{
    into.extend_from_slice(word)?;
    into.extend_from_slice(name)?;
    into.extend_from_slice(b" ")?;
    put_kind(into, schema, kind, MOST_TYPE_LEVELS)
}

#[tactic(auto, unfolding(crate::specs::SchemaText::alias_in_text))]
fn put_alias(into: &mut Vec<u8>, schema: &Schema, alias: &AliasDesc) -> Result<(), AllocError>
    ensures { OnOk result (into.new.items ≡ into.old.items ++ alias_in_text (schema_of schema.now) (plain_alias alias.now)) }
{
    put_typed(
        into,
        schema,
        b"typedef ",
        alias.name.as_slice(),
        &alias.kind,
    )?;
    into.extend_from_slice(b"\n")
}

#[tactic(auto, unfolding(crate::specs::SchemaText::constant_in_text))]
fn put_constant(into: &mut Vec<u8>, schema: &Schema, constant: &ConstDesc) -> Result<(), AllocError>
    ensures { OnOk result (into.new.items ≡ into.old.items ++ constant_in_text (schema_of schema.now) (plain_constant constant.now)) }
{
    put_typed(
        into,
        schema,
        b"const ",
        constant.name.as_slice(),
        &constant.kind,
    )?;
    into.extend_from_slice(b" ")?;
    put_value(into, &constant.value)?;
    into.extend_from_slice(b"\n")
}

fn put_enum_value(into: &mut Vec<u8>, value: &(ByteText, i32)) -> Result<(), AllocError>
    ensures { OnOk result (into.new.items ≡ into.old.items ++ enum_value_part value.now) }
{
    into.extend_from_slice(b" ")?;
    into.extend_from_slice(value.0.as_slice())?;
    into.extend_from_slice(b"=")?;
    decimal(into, i128::from(value.1))
}

fn put_enum_values(into: &mut Vec<u8>, values: &[(ByteText, i32)]) -> Result<(), AllocError>
    ensures { OnOk result (into.new.items ≡ into.old.items ++ flat_map enum_value_part values.now) }
{
    for value in values {
        put_enum_value(into, value)?;
    }
    Ok(())
}

#[tactic(auto, unfolding(crate::specs::SchemaText::enum_in_text))]
fn put_enum(into: &mut Vec<u8>, found: &EnumDesc) -> Result<(), AllocError>
    ensures { OnOk result (into.new.items ≡ into.old.items ++ enum_in_text (plain_enum found.now)) }
{
    into.extend_from_slice(b"enum ")?;
    into.extend_from_slice(found.name.as_slice())?;
    put_enum_values(into, found.values.as_slice())?;
    into.extend_from_slice(b"\n")
}

/// The word with which a struct, a union or an exception begins, and a blank.
fn struct_word(kind: FieldsKind) -> &'static str
    ensures { result.now ≡ struct_word_part kind }
{
    match kind {
        FieldsKind::Struct => "struct ",
        FieldsKind::Union => "union ",
        FieldsKind::Exception => "exception ",
        FieldsKind::Args => "args ",
    }
}

#[tactic(auto, unfolding(crate::specs::SchemaText::struct_in_text))]
fn put_struct(into: &mut Vec<u8>, schema: &Schema, found: &StructDesc) -> Result<(), AllocError>
    ensures { OnOk result (into.new.items ≡ into.old.items ++ struct_in_text (schema_of schema.now) (plain_struct found.now)) }
{
    into.extend_from_slice(struct_word(found.kind).as_bytes())?;
    line(into, found.name.as_slice())?;
    put_field_lines(into, schema, found.fields.as_slice())
}

/// Appends a definition.
fn put_def(into: &mut Vec<u8>, schema: &Schema, def: &DefRef) -> Result<(), AllocError>
    ensures { OnOk result (into.new.items ≡ into.old.items ++ def_in_text (schema_of schema.now) def.now) }
{
    match *def {
        DefRef::Alias(n) => match at(schema.aliases.as_slice(), n) {
            Some(found) => put_alias(into, schema, found),
            None => Ok(()),
        },
        DefRef::Constant(n) => match at(schema.constants.as_slice(), n) {
            Some(found) => put_constant(into, schema, found),
            None => Ok(()),
        },
        DefRef::Enum(n) => match at(schema.enums.as_slice(), n) {
            Some(found) => put_enum(into, found),
            None => Ok(()),
        },
        DefRef::Struct(n) => match at(schema.structs.as_slice(), n) {
            Some(found) => put_struct(into, schema, found),
            None => Ok(()),
        },
        DefRef::Service(n) => match at(schema.services.as_slice(), n) {
            Some(found) => put_service(into, schema, found),
            None => Ok(()),
        },
    }
}

fn put_defs(into: &mut Vec<u8>, schema: &Schema, defs: &[DefRef]) -> Result<(), AllocError>
    ensures { OnOk result (into.new.items ≡ into.old.items ++ flat_map (def_in_text (schema_of schema.now)) defs.now) }
{
    for def in defs {
        put_def(into, schema, def)?;
    }
    Ok(())
}

#[tactic(auto, unfolding(crate::specs::SchemaText::file_in_text))]
fn put_file(into: &mut Vec<u8>, schema: &Schema, file: &FileDesc) -> Result<(), AllocError>
    ensures { OnOk result (into.new.items ≡ into.old.items ++ file_in_text (schema_of schema.now) (plain_file file.now)) }
{
    into.extend_from_slice(b"file ")?;
    line(into, file.base.as_slice())?;
    put_defs(into, schema, file.defs.as_slice())
}

fn put_files(into: &mut Vec<u8>, schema: &Schema, files: &[FileDesc]) -> Result<(), AllocError>
    ensures { OnOk result (into.new.items ≡ into.old.items ++ flat_map (file_in_text (schema_of schema.now)) (map plain_file files.now)) }
{
    for file in files {
        put_file(into, schema, file)?;
    }
    Ok(())
}

impl Schema {
    /// The schema's text: a line for each file and each definition in order, and one for each field and each function. A type of
    /// more than 1,000 containers in one another is want of memory.
    pub fn text(&self, alloc: Global) -> Result<Vec<u8>, AllocError>
        requires sound { IsSound (schema_of self.now) }
        ensures { IfOk result (λ text. text.items ≡ schema_text (schema_of self.now)) }
    {
        let mut text = Vec::new(alloc);
        put_files(&mut text, self, self.files.as_slice())?;
        Ok(text)
    }
}
