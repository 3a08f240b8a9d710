//! The types of typedefs.

ghost use Rattle.std.specs.Prelude.{◌≡◌, ◌<◌, ℕ, None, Some, Option, length, slice_set, is_some, IsSome, IfOk, OnOk};
ghost use Rattle.std.specs.List.{list_all};
ghost use Rattle.schema.specs.declared.types.TypeDesc.{TypeDesc};
ghost use Rattle.idl_include.specs.Numbering.{typedefs_of};
ghost use Rattle.idl_include.specs.SourcesOf.{program_in};
ghost use Rattle.idl_names.specs.FiledIn.{filed_typedefs};
ghost use Rattle.idl_types.specs.Known.{known_kind, AreAliasTypes};

use crate::copies::MOST_TYPES;
use crate::meaning::{TypeTables, type_meant};
use crate::offers::kept;
use crate::order::building_order;
use idl_names::{InFile, NameTables};
use idl_parser::Typedef;
use schema::TypeDesc;
use std::alloc::{AllocError, Global};

/// Room for the types of so many typedefs, none of which is made.
fn none_made(alloc: Global, count: usize) -> Result<Vec<Option<TypeDesc>>, AllocError>
    ensures { IfOk result (λ made. (number : ℕ) → known_kind made.items number ≡ None) }
{
    let mut made = Vec::with_capacity(alloc, count)?;
    for _place in 0..count {
        made.push(None)?;
    }
    Ok(made)
}

/// The type of the typedef at a place is made.
fn put_made(
    made: &mut Vec<Option<TypeDesc>>,
    place: usize,
    kind: TypeDesc,
) -> Result<(), AllocError>
    ensures within { OnOk result (place < length made.old.items) }
    ensures put { OnOk result (made.new.items ≡ slice_set made.old.items place (Some kind)) }
{
    if place < made.len() {
        made[place] = Some(kind);
        return Ok(());
    }
    Err(AllocError)
}

/// Makes the type of one typedef more, from those that are made.
fn make_alias(
    alloc: Global,
    names: &NameTables<'_>,
    typedefs: &[InFile<'_, Typedef>],
    made: &mut Vec<Option<TypeDesc>>,
    number: u32,
    room: &mut u32,
) -> Result<(), AllocError>
    requires typedefs { filed_typedefs typedefs.now ≡ typedefs_of (program_in names.now) }
    requires made { AreAliasTypes (program_in names.now) made.old.items }
    ensures { OnOk result (AreAliasTypes (program_in names.now) made.new.items) }
{
    let place = number as usize;
    if place >= typedefs.len() {
        return Err(AllocError);
    }
    let typedef = &typedefs[place];
    let tables = TypeTables {
        names,
        aliases: made.as_slice(),
    };
    let kind = type_meant(alloc, &tables, typedef.file, &typedef.item.kind, room)?;
    put_made(made, place, kind)
}

/// The types of typedefs, made in this order.
fn made_in_order(
    alloc: Global,
    names: &NameTables<'_>,
    typedefs: &[InFile<'_, Typedef>],
    order: &[u32],
) -> Result<Vec<Option<TypeDesc>>, AllocError>
    requires { filed_typedefs typedefs.now ≡ typedefs_of (program_in names.now) }
    ensures { IfOk result (λ made. AreAliasTypes (program_in names.now) made.items) }
{
    let mut made = none_made(alloc, typedefs.len())?;
    let done = make_each(alloc, names, typedefs, &mut made, order);
    kept(made, done)
}

/// Makes the types of typedefs in this order.
fn make_each(
    alloc: Global,
    names: &NameTables<'_>,
    typedefs: &[InFile<'_, Typedef>],
    made: &mut Vec<Option<TypeDesc>>,
    order: &[u32],
) -> Result<(), AllocError>
    requires typedefs { filed_typedefs typedefs.now ≡ typedefs_of (program_in names.now) }
    requires made { AreAliasTypes (program_in names.now) made.old.items }
    ensures { OnOk result (AreAliasTypes (program_in names.now) made.new.items) }
{
    let mut room = MOST_TYPES;
    for number in order {
        make_alias(alloc, names, typedefs, made, *number, &mut room)?;
    }
    Ok(())
}

/// The types of typedefs, made in an order that is looked for.
fn made_types(
    alloc: Global,
    names: &NameTables<'_>,
    typedefs: &[InFile<'_, Typedef>],
) -> Result<Vec<Option<TypeDesc>>, AllocError>
    requires { filed_typedefs typedefs.now ≡ typedefs_of (program_in names.now) }
    ensures { IfOk result (λ made. AreAliasTypes (program_in names.now) made.items) }
{
    let order = building_order(alloc, names, typedefs)?;
    made_in_order(alloc, names, typedefs, order.as_slice())
}

/// Whether all types are made.
fn are_all_made(made: &[Option<TypeDesc>]) -> bool
    ensures { result ≡ list_all (λ (kind : Option TypeDesc). is_some kind) made.now }
{
    made.iter().all(|kind| kind.is_some())
}

/// The types of the typedefs of a program, by number. Those of a typedef that leads to itself, and of one with a name that stands for
/// nothing, can't be made, and are answered as want of memory; so are more than 4,000,000 types.
pub fn alias_types<'a>(
    alloc: Global,
    names: &NameTables<'a>,
    typedefs: &[InFile<'a, Typedef>],
) -> Result<Vec<Option<TypeDesc>>, AllocError>
    requires { filed_typedefs typedefs.now ≡ typedefs_of (program_in names.now) }
    ensures right { IfOk result (λ made. AreAliasTypes (program_in names.now) made.items) }
    ensures all { IfOk result (λ made. (number : ℕ) → number < length (typedefs_of (program_in names.now)) → IsSome (known_kind made.items number)) }
{
    let made = made_types(alloc, names, typedefs)?;
    if made.len() < typedefs.len() {
        return Err(AllocError);
    }
    if !are_all_made(made.as_slice()) {
        return Err(AllocError);
    }
    Ok(made)
}
