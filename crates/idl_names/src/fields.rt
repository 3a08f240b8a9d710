//! The spots of fields.

ghost use Rattle.std.specs.Prelude.{◌≡◌, ◌++◌, ◌∷◌, ◌<◌, [], pos, false, map, take, length, slice_index_or, IfOk, OnOk};
ghost use Rattle.idl_include.specs.DeclaredIn.{field_in, name_in};
ghost use Rattle.idl_include.specs.Spots.{in_file, field_spot, thrown_spot, given_name, spots_in_field, spots_in_fields, spots_in_throws, default_spots};
ghost use Rattle.idl_include.specs.Declarations.{FieldDecl};
ghost use Rattle.idl_names.specs.SpotsIn.{spots_in, shown_in};
ghost use Rattle.idl_names.specs.FieldMarks.{IsFieldMark, AreFieldMarks};

use crate::before::GivenBefore;
use crate::ids::field_ids;
use crate::marks::{repeated_ids, repeated_names};
use crate::spot::{FieldSpot, GivenName, GivenTree, ShownIn, SpotIn};
use crate::type_uses::{put_spot, put_type_uses};
use idl_parser::Field;
use std::alloc::{AllocError, Global};

/// What is known of a field by those before it.
#[derive(Clone, Copy)]
pub(crate) struct FieldMark {
    /// Whether one before has its name.
    pub(crate) repeated_name: bool,
    /// Its id.
    pub(crate) id: i64,
    /// Whether one before has its id.
    pub(crate) repeated_id: bool,
}

/// What is known of all fields of a list, each by those before it.
#[derive(Drop)]
pub(crate) struct FieldMarks {
    /// Whether one before has its name.
    pub(crate) names: Vec<bool>,
    /// The ids.
    pub(crate) ids: Vec<i64>,
    /// Whether one before has its id.
    pub(crate) repeats: Vec<bool>,
}

/// What is known of the fields of a list.
fn field_marks(alloc: Global, fields: &[Field]) -> Result<FieldMarks, AllocError>
    ensures { IfOk result (AreFieldMarks fields.now) }
{
    let names = repeated_names(alloc, fields)?;
    let ids = field_ids(alloc, fields)?;
    let repeats = repeated_ids(alloc, ids.as_slice())?;
    Ok(FieldMarks {
        names,
        ids,
        repeats,
    })
}

/// What is known of the field at a place.
fn mark_at(fields: &[Field], marks: &FieldMarks, place: usize) -> FieldMark
    requires marks { AreFieldMarks fields.now marks.now }
    requires place { place < length fields.now }
    ensures { (field : Field) → IsFieldMark (take place fields.now) (slice_index_or fields.now place field) result }
{
    FieldMark {
        repeated_name: flag_at(marks.names.as_slice(), place),
        id: number_at(marks.ids.as_slice(), place),
        repeated_id: flag_at(marks.repeats.as_slice(), place),
    }
}

/// The mark at a place.
pub(crate) fn flag_at(marks: &[bool], place: usize) -> bool
    ensures { result ≡ slice_index_or marks.now place false }
{
    match marks.get(place) {
        Some(mark) => *mark,
        None => false,
    }
}

/// The number at a place.
fn number_at(numbers: &[i64], place: usize) -> i64
    ensures { result ≡ slice_index_or numbers.now place (pos 0) }
{
    match numbers.get(place) {
        Some(number) => *number,
        None => 0,
    }
}

/// A field behind others.
#[tactic(auto, unfolding(idl_include::specs::DeclaredIn::field_in, idl_include::specs::Spots::spots_in_field))]
fn put_field<'a>(
    spots: &mut Vec<SpotIn<'a>>,
    file: u32,
    before: &'a [Field],
    field: &'a Field,
    mark: FieldMark,
) -> Result<(), AllocError>
    requires { IsFieldMark before.now field.now mark }
    ensures { OnOk result (spots_in spots.new.items ≡ spots_in spots.old.items ++ in_file file (spots_in_field (map field_in before.now) (field_in field.now))) }
{
    put_spot(spots, file, field_shown(before, field, mark))?;
    put_type_uses(spots, file, &field.kind)?;
    put_spot(spots, file, field_name_shown(before, field, mark))?;
    put_default(spots, file, field)
}

/// A field behind others, as it is shown.
fn field_shown<'a>(before: &'a [Field], field: &'a Field, mark: FieldMark) -> ShownIn<'a>
    requires { IsFieldMark before.now field.now mark }
    ensures { shown_in result ≡ field_spot (map field_in before.now) (field_in field.now) }
{
    ShownIn::Field(FieldSpot {
        before,
        field,
        id: mark.id,
        repeated: mark.repeated_id,
    })
}

/// The name of a field behind others, as it is shown.
fn field_name_shown<'a>(before: &'a [Field], field: &'a Field, mark: FieldMark) -> ShownIn<'a>
    requires { IsFieldMark before.now field.now mark }
    ensures { shown_in result ≡ given_name (map (λ (f : FieldDecl). f.name) (map field_in before.now)) (name_in field.now.name) }
{
    ShownIn::Given(GivenName {
        before: GivenBefore::Fields(before),
        name: &field.name,
        repeated: mark.repeated_name,
    })
}

/// The default of a field, if there is one.
#[tactic(auto, unfolding(idl_include::specs::DeclaredIn::field_in))]
fn put_default<'a>(
    spots: &mut Vec<SpotIn<'a>>,
    file: u32,
    field: &'a Field,
) -> Result<(), AllocError>
    ensures { OnOk result (spots_in spots.new.items ≡ spots_in spots.old.items ++ in_file file (default_spots (field_in field.now) (field_in field.now).default)) }
{
    match &field.default {
        Some(tree) => put_spot(
            spots,
            file,
            ShownIn::Value(GivenTree {
                file,
                owner: field.at,
                kind: &field.kind,
                tree,
            }),
        ),
        None => Ok(()),
    }
}

/// The fields of a list.
pub(crate) fn put_fields<'a>(
    alloc: Global,
    spots: &mut Vec<SpotIn<'a>>,
    file: u32,
    fields: &'a [Field],
) -> Result<(), AllocError>
    ensures { OnOk result (spots_in spots.new.items ≡ spots_in spots.old.items ++ in_file file (spots_in_fields [] (map field_in fields.now))) }
{
    let marks = field_marks(alloc, fields)?;
    for place in 0..fields.len() {
        let mark = mark_at(fields, &marks, place);
        put_field(spots, file, fields.split_at(place).0, &fields[place], mark)?;
    }
    Ok(())
}

/// The exceptions that a function throws.
pub(crate) fn put_throws<'a>(
    alloc: Global,
    spots: &mut Vec<SpotIn<'a>>,
    file: u32,
    fields: &'a [Field],
) -> Result<(), AllocError>
    ensures { OnOk result (spots_in spots.new.items ≡ spots_in spots.old.items ++ in_file file (spots_in_throws [] (map field_in fields.now))) }
{
    let marks = field_marks(alloc, fields)?;
    for place in 0..fields.len() {
        let mark = mark_at(fields, &marks, place);
        put_thrown(spots, file, fields.split_at(place).0, &fields[place], mark)?;
    }
    Ok(())
}

/// An exception that a function throws, behind others.
fn put_thrown<'a>(
    spots: &mut Vec<SpotIn<'a>>,
    file: u32,
    before: &'a [Field],
    field: &'a Field,
    mark: FieldMark,
) -> Result<(), AllocError>
    requires { IsFieldMark before.now field.now mark }
    ensures { OnOk result (spots_in spots.new.items ≡ spots_in spots.old.items
        ++ in_file file (thrown_spot (field_in field.now) ∷ spots_in_field (map field_in before.now) (field_in field.now))) }
{
    put_spot(spots, file, ShownIn::Thrown(field))?;
    put_field(spots, file, before, field, mark)
}
