//! Tables of structs: fields by name, and those that a literal owes.

ghost use Rattle.std.specs.Prelude.{◌≡◌, ◌++◌, None, List, map, take, IsTrue, IfOk, OnOk};
ghost use Rattle.idl_include.specs.DeclaredIn.{field_in};
ghost use Rattle.schema.specs.PlainSchema.{PlainField};
ghost use Rattle.schema.specs.SchemaOf.{plain_field, plain_struct};
ghost use Rattle.check_model.specs.FieldLists.{NumberedField};
ghost use Rattle.idl_const.specs.FieldEntries.{PlainFieldEntry};
ghost use Rattle.idl_const.specs.FieldRows.{needed_before, owed_before, owed_in};
ghost use Rattle.schema_bare.specs.ById.{numbered_in};
ghost use Rattle.const_evaluator.specs.Places.{number_at_place};
ghost use Rattle.const_evaluator.specs.GivenFields.{fields_given, default_number, default_by, default_among};
ghost use Rattle.const_evaluator.specs.OwedFields.{owed_beside, HaveSameIds};
ghost use Rattle.const_evaluator.specs.StructTables.{HaveRisingIds, struct_in_table, IsStructTable, AreStructTables};

use crate::ValuePlaces;
use crate::given_fields::GivenFields;
use idl_const::{OwedField, field_places};
use idl_names::NameMap;
use idl_parser::Field;
use schema::{FieldDesc, Need, StructDesc};
use schema_bare::{FieldById, fields_sorted};
use std::alloc::{AllocError, Global};

/// What evaluating needs of a struct.
#[derive(Drop)]
pub(crate) struct StructTable<'s> {
    /// The struct.
    pub(crate) desc: &'s StructDesc,
    /// The place of the first field of each name.
    pub(crate) places: NameMap<'s>,
    /// The fields that have a default or have to be given, by rising id.
    pub(crate) owed: Vec<OwedField<'s>>,
}

/// Whether the ids of fields rise.
fn ids_rise(fields: &[FieldDesc]) -> bool
    ensures { IsTrue result → HaveRisingIds (map plain_field fields.now) }
{
    for place in 1..fields.len() {
        if fields[place].id <= fields[place - 1].id {
            return false;
        }
    }
    true
}

/// The number of a field's default among the given values.
#[tactic(auto, unfolding(idl_include::specs::DeclaredIn::field_in))]
fn default_number(places: &ValuePlaces, file: u32, field: &Field) -> Option<u32>
    ensures { result ≡ default_number (number_at_place places.now) file (field_in field.now) }
{
    match field.default {
        Some(_) => places.number(file, field.at),
        None => None,
    }
}

/// Puts a field without a default behind others, if it has to be given.
fn put_needed<'s>(owed: &mut Vec<OwedField<'s>>, field: &'s FieldDesc) -> Result<(), AllocError>
    ensures { (rest : List PlainFieldEntry) → OnOk result (map owed_in owed.new.items ++ rest
        ≡ map owed_in owed.old.items ++ needed_before field.now.need (plain_field field.now) rest) }
{
    match field.need {
        Need::Required => {
            owed.push(OwedField {
                field,
                default: None,
            })?;
            Ok(())
        }
        Need::Default | Need::Optional => Ok(()),
    }
}

/// Puts a field behind others, if it has a default or has to be given.
fn put_owed<'s>(
    owed: &mut Vec<OwedField<'s>>,
    field: &'s FieldDesc,
    default: Option<u32>,
) -> Result<(), AllocError>
    ensures { (rest : List PlainFieldEntry) → OnOk result (map owed_in owed.new.items ++ rest
        ≡ map owed_in owed.old.items ++ owed_before (plain_field field.now) default rest) }
{
    match default {
        Some(_) => {
            owed.push(OwedField { field, default })?;
            Ok(())
        }
        None => put_needed(owed, field),
    }
}

/// Does the same with the number of the default that is written. Another id is want of memory.
fn put_field<'s>(
    owed: &mut Vec<OwedField<'s>>,
    places: &ValuePlaces,
    file: u32,
    by_id: &FieldById<'_>,
    field: &'s FieldDesc,
) -> Result<(), AllocError>
    ensures id { OnOk result (by_id.now.id ≡ field.now.id) }
    ensures put { (rest : List PlainFieldEntry) → OnOk result (map owed_in owed.new.items ++ rest
        ≡ map owed_in owed.old.items ++ owed_before (plain_field field.now) (default_number (number_at_place places.now) file (numbered_in by_id.now).decl) rest) }
{
    if by_id.id != field.id {
        return Err(AllocError);
    }
    put_owed(owed, field, default_number(places, file, by_id.field))
}

/// The owed fields of a struct, of which these are as they are written, by rising id.
fn owed_fields<'s>(
    alloc: Global,
    places: &ValuePlaces,
    file: u32,
    sorted: &[FieldById<'_>],
    fields: &'s [FieldDesc],
) -> Result<Vec<OwedField<'s>>, AllocError>
    ensures ids { IfOk result (λ owed. HaveSameIds (map numbered_in sorted.now) (map plain_field fields.now)) }
    ensures owed { IfOk result (λ owed. map owed_in owed.items
        ≡ owed_beside (λ (f : NumberedField). default_number (number_at_place places.now) file f.decl) (map numbered_in sorted.now) (map plain_field fields.now)) }
{
    let mut owed = Vec::new(alloc);
    for (place, field) in fields.iter().enumerate() {
        let Some(by_id) = sorted.get(place) else {
            return Err(AllocError);
        };
        put_field(&mut owed, places, file, by_id, field)?;
    }
    Ok(owed)
}

/// The table of a struct, of which these are the fields as they are written. Where they are others, or ids don't rise, the answer is want of memory.
fn struct_table<'s>(
    alloc: Global,
    places: &ValuePlaces,
    list: &GivenFields<'_>,
    desc: &'s StructDesc,
) -> Result<StructTable<'s>, AllocError>
    ensures desc { IfOk result (λ table. struct_in_table table ≡ plain_struct desc.now) }
    ensures right { IfOk result (λ table. IsStructTable (default_by (number_at_place places.now) (fields_given list.now)) table) }
{
    let fields = desc.fields.as_slice();
    if !ids_rise(fields) {
        return Err(AllocError);
    }
    let sorted = fields_sorted(alloc, list.fields)?;
    let owed = owed_fields(alloc, places, list.file, sorted.as_slice(), fields)?;
    match field_places(alloc, fields) {
        Ok(places) => Ok(StructTable { desc, places, owed }),
        Err(fault) => Err(fault),
    }
}

/// The tables of structs, of which these are the fields as they are written.
pub(crate) fn struct_tables<'s>(
    alloc: Global,
    places: &ValuePlaces,
    lists: &[GivenFields<'_>],
    structs: &'s [StructDesc],
) -> Result<Vec<StructTable<'s>>, AllocError>
    ensures structs { IfOk result (λ tables. map struct_in_table tables.items ≡ map plain_struct structs.now) }
    ensures right { IfOk result (λ tables. AreStructTables (default_among (number_at_place places.now) (map fields_given lists.now)) tables.items) }
{
    let mut tables = Vec::new(alloc);
    for (number, desc) in structs.iter().enumerate() {
        let Some(list) = lists.get(number) else {
            return Err(AllocError);
        };
        let table = struct_table(alloc, places, list, desc)?;
        tables.push(table)?;
    }
    Ok(tables)
}
