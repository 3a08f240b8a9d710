//! Spots in memory: what a check looks at, each with what is known of those before it in the same list.

ghost use Rattle.std.specs.Prelude.{◌≡◌, map};
ghost use Rattle.std.specs.Ordering.{int_eq};
ghost use Rattle.std.specs.List.{list_any};
ghost use Rattle.std.specs.Option.{option_map};
ghost use Rattle.idl_include.specs.DeclaredIn.{field_in, function_in, enum_value_in, number_in};
ghost use Rattle.idl_include.specs.FieldIds.{id_behind, unnumbered_in, field_ids};
ghost use Rattle.idl_include.specs.Loading.{is_among};
ghost use Rattle.idl_names.specs.Before.{names_before, texts_of};
ghost use Rattle.idl_names.specs.EnumRange.{fits_enum};
ghost use Rattle.idl_names.specs.Functions.{function_names};

use crate::before::GivenBefore;
use idl_parser::{ConstTree, EnumValue, Field, Function, Name, Struct, TypeTree};
use idl_token::Place;

/// A value that a program gives: of a constant, with the place of its name, or the default of a field, with that of the field.
#[derive(Clone, Copy)]
pub struct GivenTree<'a> {
    /// The number of its file.
    pub file: u32,
    /// The place of the constant's name, or of the field.
    pub owner: Place,
    /// The type that it has to have.
    pub kind: &'a TypeTree,
    /// The value as it is written.
    pub tree: &'a ConstTree,
}

/// A name that is given.
#[derive(Clone, Copy)]
pub struct GivenName<'a> {
    /// The names before it.
    pub before: GivenBefore<'a>,
    /// The name.
    pub name: &'a Name,
    /// Whether one before is the same.
    pub repeated: bool,
    ghost marked: { repeated ≡ is_among name.now.text (texts_of (names_before before)) },
}

/// A field.
#[derive(Clone, Copy)]
pub struct FieldSpot<'a> {
    /// Those before it in its list.
    pub before: &'a [Field],
    /// The field.
    pub field: &'a Field,
    /// Its id, also where none is written.
    pub id: i64,
    /// Whether one before has the same id.
    pub repeated: bool,
    ghost numbered: { id ≡ id_behind (unnumbered_in (map field_in before.now)) (option_map number_in field.now.id) },
    ghost marked: { repeated ≡ list_any (int_eq id) (field_ids (map field_in before.now)) },
}

/// A value of an enum.
#[derive(Clone, Copy)]
pub struct EnumValueSpot<'a> {
    /// Those before it.
    pub before: &'a [EnumValue],
    /// The value.
    pub value: &'a EnumValue,
    /// Whether its number has 32 bits.
    pub fits: bool,
    ghost marked: { fits ≡ fits_enum (map enum_value_in before.now) (enum_value_in value.now) },
}

/// A function of a service.
#[derive(Clone, Copy)]
pub struct FunctionSpot<'a> {
    /// The number of the service.
    pub service: u32,
    /// The functions before it.
    pub before: &'a [Function],
    /// The function.
    pub function: &'a Function,
    /// Whether one before has its name.
    pub repeated: bool,
    ghost marked: { repeated ≡ is_among function.now.name.text (function_names (map function_in before.now)) },
}

/// What is shown at a spot.
#[derive(Clone, Copy)]
pub enum ShownIn<'a> {
    /// A name that is given.
    Given(GivenName<'a>),
    /// The name of a type.
    TypeUse(&'a Name),
    /// The name of a service that is extended.
    ParentUse(&'a Name),
    /// A typedef, by its number and its name.
    Typedef(u32, &'a Name),
    /// A field.
    Field(FieldSpot<'a>),
    /// An exception that a function throws.
    Thrown(&'a Field),
    /// A value of an enum.
    EnumValue(EnumValueSpot<'a>),
    /// A struct, a union or an exception, with its number.
    Struct(u32, &'a Struct),
    /// A service, by its number and its name.
    Service(u32, &'a Name),
    /// A function.
    Function(FunctionSpot<'a>),
    /// A value.
    Value(GivenTree<'a>),
}

/// A spot, with the number of its file.
#[derive(Clone, Copy)]
pub struct SpotIn<'a> {
    /// The number of the file.
    pub file: u32,
    /// What is shown there.
    pub shown: ShownIn<'a>,
}
