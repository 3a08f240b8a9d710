//! The shapes of a service's functions.
ghost use Rattle.std.specs.Prelude.{◌≡◌, ◌++◌, ◌<◌, codes, length, map, Option, OnOk, OnErr, IfOk, IsPermutation};
ghost use Rattle.std.specs.List.Sorted.{IsSortedBy};
ghost use Rattle.std.specs.Option.{option_map, option_copied};
ghost use Rattle.schema.specs.Inherited.{functions_of};
ghost use Rattle.schema.specs.LookUp.{fields_at};
ghost use Rattle.schema.specs.PlainKind.{kind_of};
ghost use Rattle.schema.specs.SchemaOf.{schema_of, plain_field, plain_function};
ghost use Rattle.schema.specs.Shapes.{AreShapesOf, id_and_tags, ids_and_tags, is_shown_before, joined, kind_tags, result_tags, shape_line, shown_function, throws_tags};
ghost use Rattle.schema.specs.Sound.{IsSound};

use crate::look_up::{fields_at, own_part};
use crate::services_text::put_oneway;
use crate::types::{FieldDesc, FnDesc, Schema, TypeDesc};
use crate::types_text::{inner, tag_word};
use limits::MOST_TYPE_LEVELS;
use std::alloc::{AllocError, Global};
use text_out::decimal;
use thrift_value::{ByteText, FnShapes};

/// Appends the tags of a type of at most so many levels, of which what stands in the innermost container is one. It recurses once a level.
#[cycle(shapes)]
fn put_tags(into: &mut Vec<u8>, kind: &TypeDesc, levels: u32) -> Result<(), AllocError>
    ensures { OnOk result (into.new.items ≡ into.old.items ++ kind_tags (kind_of kind.now)) }
{
    if levels == 0 {
        return Err(AllocError);
    }
    into.extend_from_slice(tag_word(kind).as_bytes())?;
    let Some((first, value)) = inner(kind) else {
        return Ok(());
    };
    put_tags(into, first, levels - 1)?;
    if let Some(value) = value {
        into.extend_from_slice(b",")?;
        put_tags(into, value, levels - 1)?;
    }
    into.extend_from_slice(b">")
}

/// Appends a field's id and its tags.
fn put_field_tags(into: &mut Vec<u8>, field: &FieldDesc) -> Result<(), AllocError>
    ensures { OnOk result (into.new.items ≡ into.old.items ++ id_and_tags (plain_field field.now)) }
{
    decimal(into, i128::from(field.id))?;
    into.extend_from_slice(b":")?;
    put_tags(into, &field.kind, MOST_TYPE_LEVELS)
}

fn put_behind_comma(into: &mut Vec<u8>, field: &FieldDesc) -> Result<(), AllocError>
    ensures { OnOk result (into.new.items ≡ into.old.items ++ (codes "," ++ id_and_tags (plain_field field.now))) }
{
    into.extend_from_slice(b",")?;
    put_field_tags(into, field)
}

fn put_separated(into: &mut Vec<u8>, fields: &[FieldDesc]) -> Result<(), AllocError>
    ensures { OnOk result (into.new.items ≡ into.old.items ++ joined (codes ",") (map id_and_tags (map plain_field fields.now))) }
{
    let Some((first, more)) = fields.split_first() else {
        return Ok(());
    };
    put_field_tags(into, first)?;
    for field in more {
        put_behind_comma(into, field)?;
    }
    Ok(())
}

/// Appends the ids and tags of fields in parentheses.
fn put_fields_tags(into: &mut Vec<u8>, fields: &[FieldDesc]) -> Result<(), AllocError>
    ensures { OnOk result (into.new.items ≡ into.old.items ++ ids_and_tags (map plain_field fields.now)) }
{
    into.extend_from_slice(b"(")?;
    put_separated(into, fields)?;
    into.extend_from_slice(b")")
}

fn put_args_tags(into: &mut Vec<u8>, schema: &Schema, args: u32) -> Result<(), AllocError>
    ensures { OnOk result (into.new.items ≡ into.old.items ++ ids_and_tags (fields_at (schema_of schema.now) args)) }
{
    put_fields_tags(into, fields_at(schema, args))
}

fn put_result_tags(into: &mut Vec<u8>, kind: Option<&TypeDesc>) -> Result<(), AllocError>
    ensures { OnOk result (into.new.items ≡ into.old.items ++ result_tags (option_map kind_of (option_copied kind.entry))) }
{
    match kind {
        Some(kind) => put_tags(into, kind, MOST_TYPE_LEVELS),
        None => into.extend_from_slice(b"void"),
    }
}

fn put_throws_tags(into: &mut Vec<u8>, throws: &[FieldDesc]) -> Result<(), AllocError>
    ensures { OnOk result (into.new.items ≡ into.old.items ++ throws_tags (map plain_field throws.now)) }
{
    if throws.is_empty() {
        return Ok(());
    }
    into.extend_from_slice(b" throws")?;
    put_fields_tags(into, throws)
}

/// Appends the shape of a function.
fn put_shape(into: &mut Vec<u8>, schema: &Schema, function: &FnDesc) -> Result<(), AllocError>
    ensures { OnOk result (into.new.items ≡ into.old.items ++ shape_line (schema_of schema.now) (plain_function function.now)) }
{
    put_oneway(into, function.oneway)?;
    into.extend_from_slice(function.name.as_slice())?;
    put_args_tags(into, schema, function.args)?;
    into.extend_from_slice(b":")?;
    put_result_tags(into, function.result.as_ref())?;
    put_throws_tags(into, function.throws.as_slice())
}

/// The shape of a function.
fn shape(alloc: Global, schema: &Schema, function: &FnDesc) -> Result<ByteText, AllocError>
    ensures { IfOk result (λ line. line ≡ shape_line (schema_of schema.now) (plain_function function.now)) }
{
    let mut line = Vec::new(alloc);
    put_shape(&mut line, schema, function)?;
    Ok(ByteText::new(line))
}

/// Appends functions to a list of them.
fn add_functions<'a>(all: &mut Vec<&'a FnDesc>, functions: &'a [FnDesc]) -> Result<(), AllocError>
    ensures { OnOk result (map shown_function all.new.items ≡ map shown_function all.old.items ++ map plain_function functions.now) }
{
    for function in functions {
        all.push(function)?;
    }
    Ok(())
}

/// The functions of a service, inherited ones included, the nearest first.
fn inherited(alloc: Global, schema: &Schema, service: u32) -> Result<Vec<&FnDesc>, AllocError>
    ensures { IfOk result (λ all. map shown_function all.items ≡ functions_of (schema_of schema.now).services service) }
{
    let mut all = Vec::new(alloc);
    let mut next = Some(service);
    for _steps in 0..schema.services.as_slice().len() {
        let Some(which) = next else {
            return Ok(all);
        };
        let (functions, parent) = own_part(schema, which);
        add_functions(&mut all, functions)?;
        next = parent;
    }
    Ok(all)
}

/// Sorts functions by their names.
fn sort_by_name(all: &mut Vec<&FnDesc>) -> Result<(), AllocError>
    ensures permutation { IsPermutation all.old.items all.new.items }
    ensures sorted { OnOk result (IsSortedBy is_shown_before all.new.items) }
{
    all.sort_by(|a, b| a.name.as_slice().cmp(b.name.as_slice()))?;
    Ok(())
}

/// The shapes of functions.
fn lines_of(
    alloc: Global,
    schema: &Schema,
    functions: &[&FnDesc],
) -> Result<Vec<ByteText>, AllocError>
    ensures { IfOk result (λ lines. lines.items ≡ map (shape_line (schema_of schema.now)) (map shown_function functions.now)) }
{
    let mut lines = Vec::with_capacity(alloc, functions.len())?;
    for function in functions {
        lines.push(shape(alloc, schema, function)?)?;
    }
    Ok(lines)
}

impl Schema {
    /// The shapes of the functions of the service at a number, inherited ones included, by their names. A type of more than 1,000
    /// containers in one another is want of memory.
    pub fn shapes(&self, alloc: Global, service: u32) -> Result<FnShapes, AllocError>
        requires sound { IsSound (schema_of self.now) }
        requires place { service < length (schema_of self.now).services }
        ensures { IfOk result (λ shapes. AreShapesOf (schema_of self.now) service shapes) }
    {
        let mut functions = inherited(alloc, self, service)?;
        sort_by_name(&mut functions)?;
        Ok(FnShapes::new(lines_of(alloc, self, functions.as_slice())?))
    }
}
