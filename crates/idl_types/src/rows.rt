//! Rows of numbers: for each typedef those that its type names, and for each service its parent.

ghost use Rattle.std.specs.Prelude.{◌≡◌, ◌++◌, [], map, IfOk, OnOk};
ghost use Rattle.std.specs.List.{cons_option};
ghost use Rattle.std.specs.Option.{option_map, option_and_then};
ghost use Rattle.idl_include.specs.Cycles.{alias_in, alias_graph, parent_named, parent_graph, listed};
ghost use Rattle.idl_include.specs.DeclaredIn.{type_in};
ghost use Rattle.idl_include.specs.Numbering.{typedefs_of, services_of};
ghost use Rattle.idl_include.specs.Program.{Program};
ghost use Rattle.idl_include.specs.SourcesOf.{program_in};
ghost use Rattle.idl_names.specs.FiledIn.{filed_by, filed_typedefs, filed_services, service_declared};
ghost use Rattle.idl_names.specs.Meanings.{type_meant};
ghost use Rattle.idl_types.specs.Rows.{aliases_in_type, parents_of};

use idl_names::{InFile, NameTables, TypeName};
use idl_parser::{Service, TypeTree, Typedef};
use std::alloc::{AllocError, Global};

/// Each typedef, by number, with those that its type names, also inside containers.
pub fn typedef_rows(
    alloc: Global,
    names: &NameTables<'_>,
    typedefs: &[InFile<'_, Typedef>],
) -> Result<Vec<Vec<u32>>, AllocError>
    requires { filed_typedefs typedefs.now ≡ typedefs_of (program_in names.now) }
    ensures { IfOk result (λ rows. map (λ row. row.items) rows.items ≡ alias_graph (program_in names.now)) }
{
    let mut rows = Vec::new(alloc);
    for typedef in typedefs {
        let mut row = Vec::new(alloc);
        put_aliases(&mut row, names, typedef.file, &typedef.item.kind)?;
        rows.push(row)?;
    }
    Ok(rows)
}

/// The typedefs that a type in a file names.
fn put_aliases(
    row: &mut Vec<u32>,
    names: &NameTables<'_>,
    file: u32,
    tree: &TypeTree,
) -> Result<(), AllocError>
    ensures { OnOk result (row.new.items ≡ row.old.items ++ aliases_in_type (program_in names.now) file (type_in tree.now)) }
{
    match tree {
        TypeTree::Base(_, _) => Ok(()),
        TypeTree::Named(name) => put_alias(row, names.type_named(file, name.text.as_slice())),
        TypeTree::Map(_, key, value) => {
            put_aliases(row, names, file, key)?;
            put_aliases(row, names, file, value)
        }
        TypeTree::Set(_, member) => put_aliases(row, names, file, member),
        TypeTree::List(_, element) => put_aliases(row, names, file, element),
    }
}

/// What a name stands for, if it is a typedef.
fn put_alias(row: &mut Vec<u32>, meant: Option<TypeName>) -> Result<(), AllocError>
    ensures { OnOk result (row.new.items ≡ row.old.items ++ cons_option (option_and_then alias_in (option_map type_meant meant)) []) }
{
    if let Some(TypeName::Alias(number)) = meant {
        row.push(number)?;
    }
    Ok(())
}

/// The parent of each service, by number, if it has one.
pub fn service_parents(
    alloc: Global,
    names: &NameTables<'_>,
    services: &[InFile<'_, Service>],
) -> Result<Vec<Option<u32>>, AllocError>
    requires { filed_services services.now ≡ services_of (program_in names.now) }
    ensures { IfOk result (λ parents. parents.items ≡ parents_of (program_in names.now)) }
{
    let mut parents = Vec::new(alloc);
    for service in services {
        parents.push(parent_named(names, service))?;
    }
    Ok(parents)
}

/// The parent of a service, if it has one.
fn parent_named(names: &NameTables<'_>, service: &InFile<'_, Service>) -> Option<u32>
    ensures { result ≡ parent_named (program_in names.now) (filed_by service_declared service.now) }
{
    match &service.item.parent {
        Some(name) => names.service_named(service.file, name.text.as_slice()),
        None => None,
    }
}

/// Gives parents as rows, of one number or none.
pub fn parent_rows(alloc: Global, parents: &[Option<u32>]) -> Result<Vec<Vec<u32>>, AllocError>
    ensures rows { IfOk result (λ rows. map (λ row. row.items) rows.items ≡ map listed parents.now) }
    ensures graph { IfOk result (λ rows. (program : Program) → parents.now ≡ parents_of program → map (λ row. row.items) rows.items ≡ parent_graph program) }
{
    let mut rows = Vec::new(alloc);
    for parent in parents {
        let row = row_of(alloc, *parent)?;
        rows.push(row)?;
    }
    Ok(rows)
}

/// A row of one number or none.
fn row_of(alloc: Global, parent: Option<u32>) -> Result<Vec<u32>, AllocError>
    ensures { IfOk result (λ row. row.items ≡ listed parent) }
{
    let mut row = Vec::new(alloc);
    if let Some(number) = parent {
        row.push(number)?;
    }
    Ok(row)
}
