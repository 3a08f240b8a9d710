//! The fields of a list get their defaults.

ghost use Rattle.std.specs.Prelude.{map, OnOk};
ghost use Rattle.idl_include.specs.DeclaredIn.{field_in};
ghost use Rattle.idl_include.specs.Program.{Program};
ghost use Rattle.schema.specs.SchemaOf.{plain_field};
ghost use Rattle.schema_bare.specs.ById.{numbered_in};
ghost use Rattle.idl_check.specs.Taking.{AreWorths};
ghost use Rattle.idl_check.specs.Sites.{AllZipped};
ghost use Rattle.idl_check.specs.Filling.{IsFieldFilled, AreDefaultsFilled};

use crate::worths::Worths;
use idl_parser::Field;
use schema::{FieldDesc, FieldList, Listed};
use schema_bare::{FieldById, fields_sorted};
use std::alloc::{AllocError, Global};
use std::mem;

/// A field gets its default, if it has one.
#[tactic(auto, unfolding(idl_include::specs::DeclaredIn::field_in))]
fn fill_field(
    worths: &mut Worths<'_>,
    file: u32,
    by_id: &FieldById<'_>,
    field: &mut FieldDesc,
) -> Result<(), AllocError>
    ensures { (program : Program) → AreWorths program worths.old
        → OnOk result (IsFieldFilled program file (numbered_in by_id.now) (plain_field field.old) (plain_field field.new) × AreWorths program worths.new) }
{
    if by_id.field.default.is_none() {
        return Ok(());
    }
    let value = worths.take(file, by_id.field.at)?;
    field.default = Some(value);
    Ok(())
}

/// Fields in this order get their defaults.
fn fill_each(
    worths: &mut Worths<'_>,
    file: u32,
    sorted: &[FieldById<'_>],
    fields: &mut Vec<FieldDesc>,
) -> Result<(), AllocError>
    ensures { (program : Program) → AreWorths program worths.old
        → OnOk result (AllZipped (IsFieldFilled program file) (map numbered_in sorted.now) (map plain_field fields.old.items) (map plain_field fields.new.items) × AreWorths program worths.new) }
{
    if sorted.len() != fields.len() {
        return Err(AllocError);
    }
    for place in 0..sorted.len() {
        fill_field(worths, file, &sorted[place], &mut fields[place])?;
    }
    Ok(())
}

/// The fields of a list get their defaults.
pub(crate) fn fill_fields(
    alloc: Global,
    worths: &mut Worths<'_>,
    file: u32,
    given: &[Field],
    fields: &mut FieldList,
) -> Result<(), AllocError>
    ensures { (program : Program) → AreWorths program worths.old
        → OnOk result (AreDefaultsFilled program file (map field_in given.now) (map plain_field fields.old) (map plain_field fields.new) × AreWorths program worths.new) }
{
    let sorted = fields_sorted(alloc, given)?;
    let mut all = mem::replace(fields, Listed::new(Vec::new(alloc))).into_vec();
    let done = fill_each(worths, file, sorted.as_slice(), &mut all);
    *fields = Listed::new(all);
    done
}
