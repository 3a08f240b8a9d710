//! The structs of a schema get their defaults.

ghost use Rattle.std.specs.Prelude.{◌≡◌, map, OnOk};
ghost use Rattle.idl_include.specs.Numbering.{structs_of, services_of};
ghost use Rattle.idl_include.specs.Program.{Program};
ghost use Rattle.idl_names.specs.FiledIn.{filed_structs, filed_services};
ghost use Rattle.schema.specs.SchemaOf.{plain_struct};
ghost use Rattle.check_model.specs.FieldLists.{field_lists};
ghost use Rattle.idl_check.specs.Taking.{AreWorths};
ghost use Rattle.idl_check.specs.Sites.{AllZipped, sited, sited_in};
ghost use Rattle.idl_check.specs.Filling.{IsStructFilled};

use crate::fields::fill_fields;
use crate::sites::{FieldSite, field_sites};
use crate::worths::Worths;
use idl_names::InFile;
use idl_parser::{Service, Struct};
use schema::{Listed, StructDesc};
use std::alloc::{AllocError, Global};
use std::mem;

/// A struct gets its defaults.
fn fill_struct(
    alloc: Global,
    worths: &mut Worths<'_>,
    site: &FieldSite<'_>,
    one: &mut StructDesc,
) -> Result<(), AllocError>
    ensures { (program : Program) → AreWorths program worths.old
        → OnOk result (IsStructFilled program (sited_in site.now) (plain_struct one.old) (plain_struct one.new) × AreWorths program worths.new) }
{
    fill_fields(alloc, worths, site.file, site.fields, &mut one.fields)
}

/// Structs in this order get their defaults.
fn fill_each(
    alloc: Global,
    worths: &mut Worths<'_>,
    sites: &[FieldSite<'_>],
    structs: &mut Vec<StructDesc>,
) -> Result<(), AllocError>
    ensures { (program : Program) → AreWorths program worths.old
        → OnOk result (AllZipped (IsStructFilled program) (map sited_in sites.now) (map plain_struct structs.old.items) (map plain_struct structs.new.items) × AreWorths program worths.new) }
{
    if sites.len() != structs.len() {
        return Err(AllocError);
    }
    for place in 0..sites.len() {
        fill_struct(alloc, worths, &sites[place], &mut structs[place])?;
    }
    Ok(())
}

/// The structs of a list in this order get their defaults.
fn fill_list(
    alloc: Global,
    worths: &mut Worths<'_>,
    sites: &[FieldSite<'_>],
    structs: &mut Listed<StructDesc>,
) -> Result<(), AllocError>
    ensures { (program : Program) → AreWorths program worths.old
        → OnOk result (AllZipped (IsStructFilled program) (map sited_in sites.now) (map plain_struct structs.old) (map plain_struct structs.new) × AreWorths program worths.new) }
{
    let mut all = mem::replace(structs, Listed::new(Vec::new(alloc))).into_vec();
    let done = fill_each(alloc, worths, sites, &mut all);
    *structs = Listed::new(all);
    done
}

/// The structs of a schema get their defaults.
pub(crate) fn fill_structs(
    alloc: Global,
    worths: &mut Worths<'_>,
    given: &[InFile<'_, Struct>],
    services: &[InFile<'_, Service>],
    structs: &mut Listed<StructDesc>,
) -> Result<(), AllocError>
    ensures { (program : Program) → filed_structs given.now ≡ structs_of program → filed_services services.now ≡ services_of program → AreWorths program worths.old
        → OnOk result (AllZipped (IsStructFilled program) (map sited (field_lists program)) (map plain_struct structs.old) (map plain_struct structs.new) × AreWorths program worths.new) }
{
    let sites = field_sites(alloc, given, services)?;
    fill_list(alloc, worths, sites.as_slice(), structs)
}
