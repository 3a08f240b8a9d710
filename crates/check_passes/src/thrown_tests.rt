//! The test of what functions throw.

ghost use Rattle.std.specs.Prelude.{◌≡◌, false, Some, slice_get, IfOk};
ghost use Rattle.std.specs.Option.{option_map, option_map_or, option_copied};
ghost use Rattle.idl_include.specs.TypeExpr.{name_expr};
ghost use Rattle.idl_include.specs.DeclaredIn.{name_in, type_in};
ghost use Rattle.idl_include.specs.Program.{Program};
ghost use Rattle.idl_names.specs.FiledIn.{filed_structs};
ghost use Rattle.check_passes.specs.Right.{AreFilesOf, alias_known, AreMeanings};
ghost use Rattle.schema.specs.PlainKind.{kind_of};
ghost use Rattle.check_passes.specs.Exceptions.{struct_number_in, type_name, IsStructMeant, declares_exception};

use crate::faults::CheckKind;
use crate::pass::SpotTest;
use idl_names::{InFile, NameTables, ShownIn, SpotIn, TypeName};
use idl_parser::{Field, Name, Struct, StructKind, TypeTree};
use schema::TypeDesc;
use std::alloc::AllocError;

/// Finds fields of what functions throw whose type isn't an exception's.
#[derive(Drop)]
pub(crate) struct ThrownOthers<'a> {
    /// What names stand for.
    pub(crate) names: &'a NameTables<'a>,
    /// Structs, unions and exceptions by number.
    pub(crate) structs: &'a [InFile<'a, Struct>],
    /// What typedefs are known to mean, by number.
    pub(crate) aliases: &'a [Option<TypeDesc>],
}

impl<'a> SpotTest for ThrownOthers<'a> {
    ghost use Rattle.check_model.specs.Passes.{not_exception};
    ghost use Rattle.check_passes.specs.Right.{AreFilesOf, AreStructsOf, AreMeanings};

    ghost pass = { not_exception };

    ghost right = { λ t program. AreFilesOf program t.names.now × AreStructsOf program t.structs.now × AreMeanings program t.aliases.now };

    fn kind(&self) -> CheckKind {
        CheckKind::NotException
    }

    fn finds(&self, spot: &SpotIn<'_>) -> Result<bool, AllocError> {
        match spot.shown {
            ShownIn::Thrown(field) => {
                let other = self.is_other(spot.file, field)?;
                Ok(other)
            }
            _ => Ok(false),
        }
    }
}

impl<'a> ThrownOthers<'a> {
    ghost use Rattle.std.specs.Prelude.{◌↔◌, IsTrue, IfOk};
    ghost use Rattle.idl_include.specs.DeclaredIn.{field_in, type_in};
    ghost use Rattle.idl_include.specs.Program.{Program};
    ghost use Rattle.check_model.specs.Passes.{MeansException};
    ghost use Rattle.check_passes.specs.Right.{AreFilesOf, AreStructsOf, AreMeanings};

    /// Whether the type of a field that stands in a file means no exception.
    #[tactic(auto, unfolding(idl_include::specs::DeclaredIn::field_in))]
    fn is_other(&self, file: u32, field: &Field) -> Result<bool, AllocError>
        ensures { (program : Program) → AreFilesOf program self.now.names.now → AreStructsOf program self.now.structs.now
            → AreMeanings program self.now.aliases.now → IfOk result (λ other. IsTrue other ↔ (MeansException program file (field_in field.now).type → ⊥)) }
    {
        let exception = self.means_exception(file, &field.kind)?;
        Ok(!exception)
    }

    /// Whether a type that stands in a file means an exception.
    fn means_exception(&self, file: u32, tree: &TypeTree) -> Result<bool, AllocError>
        ensures { (program : Program) → AreFilesOf program self.now.names.now → AreStructsOf program self.now.structs.now
            → AreMeanings program self.now.aliases.now → IfOk result (λ exception. IsTrue exception ↔ MeansException program file (type_in tree.now)) }
    {
        let meant = struct_meant(self.names, self.aliases, file, tree)?;
        match meant {
            Some(number) => Ok(is_exception(self.structs, number)),
            None => Ok(false),
        }
    }
}

/// The struct that a type means that stands in a file, if it means one.
fn struct_meant(
    names: &NameTables<'_>,
    aliases: &[Option<TypeDesc>],
    file: u32,
    tree: &TypeTree,
) -> Result<Option<u32>, AllocError>
    ensures { (program : Program) → AreFilesOf program names.now → AreMeanings program aliases.now → IfOk result (IsStructMeant program file (type_in tree.now)) }
{
    match name_of_type(tree) {
        Some(name) => {
            let meant = struct_named(names, aliases, file, name)?;
            Ok(meant)
        }
        None => Ok(None),
    }
}

/// The name that a type is, if it is one.
fn name_of_type(tree: &TypeTree) -> Option<&Name>
    ensures { option_map name_in (option_copied result) ≡ type_name (type_in tree.now) }
{
    match tree {
        TypeTree::Named(name) => Some(name),
        TypeTree::Base(_, _) => None,
        TypeTree::Map(_, _, _) => None,
        TypeTree::Set(_, _) => None,
        TypeTree::List(_, _) => None,
    }
}

/// The struct that a type's name means that stands in a file, if it means one.
fn struct_named(
    names: &NameTables<'_>,
    aliases: &[Option<TypeDesc>],
    file: u32,
    name: &Name,
) -> Result<Option<u32>, AllocError>
    ensures { (program : Program) → AreFilesOf program names.now → AreMeanings program aliases.now → IfOk result (IsStructMeant program file (name_expr (name_in name.now))) }
{
    match names.type_named(file, name.text.as_slice()) {
        Some(TypeName::Struct(number)) => Ok(Some(number)),
        Some(TypeName::Alias(number)) => struct_of_alias(aliases, number),
        Some(TypeName::Enum(_)) => Ok(None),
        None => Ok(None),
    }
}

/// The struct that the typedef of some number is known to mean, if it means one; want of memory where nothing is known of it.
fn struct_of_alias(aliases: &[Option<TypeDesc>], number: u32) -> Result<Option<u32>, AllocError>
    ensures { IfOk result (λ found. option_map struct_number_in (alias_known aliases.now number) ≡ Some found) }
{
    match aliases.get(number as usize) {
        Some(known) => struct_known(known),
        None => Err(AllocError),
    }
}

/// The struct that a type is, if it is known and one; want of memory where it isn't known.
fn struct_known(known: &Option<TypeDesc>) -> Result<Option<u32>, AllocError>
    ensures { IfOk result (λ found. option_map struct_number_in (option_map kind_of known.now) ≡ Some found) }
{
    match known {
        Some(kind) => Ok(struct_number(kind)),
        None => Err(AllocError),
    }
}

/// The number of the struct that a type is, if it is one.
fn struct_number(kind: &TypeDesc) -> Option<u32>
    ensures { result ≡ struct_number_in (kind_of kind.now) }
{
    match kind {
        TypeDesc::Struct(which) => Some(*which),
        TypeDesc::Bool | TypeDesc::I8 | TypeDesc::I16 | TypeDesc::I32 | TypeDesc::I64 => None,
        TypeDesc::Double | TypeDesc::Text | TypeDesc::Binary | TypeDesc::Uuid => None,
        TypeDesc::Enum(_) => None,
        TypeDesc::Map(_, _) | TypeDesc::Set(_) | TypeDesc::List(_) => None,
    }
}

/// Whether the struct of some number is an exception.
fn is_exception(structs: &[InFile<'_, Struct>], number: u32) -> bool
    ensures { result ≡ option_map_or declares_exception (slice_get (filed_structs structs.now) number) false }
{
    match structs.get(number as usize) {
        Some(filed) => matches!(filed.item.kind, StructKind::Exception),
        None => false,
    }
}
