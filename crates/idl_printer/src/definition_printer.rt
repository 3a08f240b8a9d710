//! The text of definitions.
ghost use Rattle.std.specs.Prelude.{◌≡◌, ◌++◌, codes, OnOk};
ghost use Rattle.std.specs.List.{flat_map};
ghost use Rattle.std.specs.Option.{option_copied};
ghost use Rattle.idl_printer.specs.Printed.{line_end, value_text, maybe_text, oneway_text, result_text, throws_text, signature_text, function_text, function_line, const_text, typedef_text, number_text, enum_value_text, enum_value_line, enum_text, struct_word_text, struct_text, parent_text, service_text, definition_text, opening_line, closing_line};

use crate::field_printer::{put_arguments, put_field_lines};
use crate::type_printer::{put_spaced_word, put_type, put_word};
use crate::value_printer::{put_int, put_value};
use idl_parser::{
    Const, ConstTree, Definition, Enum, EnumValue, Field, Function, Int, Name, Service, Struct,
    StructKind, TypeTree, Typedef,
};
use idl_token::Terminal;
use std::alloc::AllocError;

fn put_opening(into: &mut Vec<u8>) -> Result<(), AllocError>
    ensures { OnOk result (into.new.items ≡ into.old.items ++ opening_line) }
{
    into.extend_from_slice(b" {\n")
}

fn put_ending(into: &mut Vec<u8>) -> Result<(), AllocError>
    ensures { OnOk result (into.new.items ≡ into.old.items ++ closing_line) }
{
    into.extend_from_slice(b"}\n")
}

fn put_name(into: &mut Vec<u8>, name: &Name) -> Result<(), AllocError>
    ensures { OnOk result (into.new.items ≡ into.old.items ++ name.now.text) }
{
    into.extend_from_slice(name.text.as_slice())
}

/// Appends the sign of equality, a value and a line's end.
fn put_assigned(into: &mut Vec<u8>, value: &ConstTree) -> Result<(), AllocError>
    ensures { OnOk result (into.new.items ≡ into.old.items ++ (codes " = " ++ (value_text value.now ++ line_end))) }
{
    into.extend_from_slice(b" = ")?;
    put_value(into, value)?;
    into.extend_from_slice(b"\n")
}

#[tactic(auto, unfolding(crate::specs::Printed::const_text))]
fn put_const(into: &mut Vec<u8>, constant: &Const) -> Result<(), AllocError>
    ensures { OnOk result (into.new.items ≡ into.old.items ++ const_text constant.now) }
{
    put_spaced_word(into, Terminal::Const)?;
    put_type(into, &constant.kind)?;
    into.extend_from_slice(b" ")?;
    put_name(into, &constant.name)?;
    put_assigned(into, &constant.value)
}

#[tactic(auto, unfolding(crate::specs::Printed::typedef_text))]
fn put_typedef(into: &mut Vec<u8>, typedef: &Typedef) -> Result<(), AllocError>
    ensures { OnOk result (into.new.items ≡ into.old.items ++ typedef_text typedef.now) }
{
    put_spaced_word(into, Terminal::Typedef)?;
    put_type(into, &typedef.kind)?;
    into.extend_from_slice(b" ")?;
    put_name(into, &typedef.name)?;
    into.extend_from_slice(b"\n")
}

fn put_number(into: &mut Vec<u8>, number: Option<Int>) -> Result<(), AllocError>
    ensures { OnOk result (into.new.items ≡ into.old.items ++ maybe_text number_text number) }
{
    match number {
        Some(number) => {
            into.extend_from_slice(b" = ")?;
            put_int(into, number)
        }
        None => Ok(()),
    }
}

#[tactic(auto, unfolding(crate::specs::Printed::enum_value_text))]
fn put_enum_value(into: &mut Vec<u8>, value: &EnumValue) -> Result<(), AllocError>
    ensures { OnOk result (into.new.items ≡ into.old.items ++ enum_value_text value.now) }
{
    put_name(into, &value.name)?;
    put_number(into, value.number)
}

fn put_enum_value_line(into: &mut Vec<u8>, value: &EnumValue) -> Result<(), AllocError>
    ensures { OnOk result (into.new.items ≡ into.old.items ++ enum_value_line value.now) }
{
    into.extend_from_slice(b"  ")?;
    put_enum_value(into, value)?;
    into.extend_from_slice(b"\n")
}

fn put_enum_values(into: &mut Vec<u8>, values: &[EnumValue]) -> Result<(), AllocError>
    ensures { OnOk result (into.new.items ≡ into.old.items ++ flat_map enum_value_line values.now) }
{
    for value in values {
        put_enum_value_line(into, value)?;
    }
    Ok(())
}

#[tactic(auto, unfolding(crate::specs::Printed::enum_text))]
fn put_enum(into: &mut Vec<u8>, enumeration: &Enum) -> Result<(), AllocError>
    ensures { OnOk result (into.new.items ≡ into.old.items ++ enum_text enumeration.now) }
{
    into.extend_from_slice(b"\n")?;
    put_spaced_word(into, Terminal::Enum)?;
    put_name(into, &enumeration.name)?;
    put_opening(into)?;
    put_enum_values(into, enumeration.values.as_slice())?;
    put_ending(into)
}

fn put_struct_word(into: &mut Vec<u8>, kind: StructKind) -> Result<(), AllocError>
    ensures { OnOk result (into.new.items ≡ into.old.items ++ struct_word_text kind) }
{
    match kind {
        StructKind::Struct => put_spaced_word(into, Terminal::Struct),
        StructKind::Union => put_spaced_word(into, Terminal::Union),
        StructKind::Exception => put_spaced_word(into, Terminal::Exception),
    }
}

#[tactic(auto, unfolding(crate::specs::Printed::struct_text))]
fn put_struct(into: &mut Vec<u8>, structure: &Struct) -> Result<(), AllocError>
    ensures { OnOk result (into.new.items ≡ into.old.items ++ struct_text structure.now) }
{
    into.extend_from_slice(b"\n")?;
    put_struct_word(into, structure.kind)?;
    put_name(into, &structure.name)?;
    put_opening(into)?;
    put_field_lines(into, structure.fields.as_slice())?;
    put_ending(into)
}

fn put_oneway(into: &mut Vec<u8>, oneway: bool) -> Result<(), AllocError>
    ensures { OnOk result (into.new.items ≡ into.old.items ++ oneway_text oneway) }
{
    if oneway {
        put_spaced_word(into, Terminal::Oneway)
    } else {
        Ok(())
    }
}

fn put_result(into: &mut Vec<u8>, kind: Option<&TypeTree>) -> Result<(), AllocError>
    ensures { OnOk result (into.new.items ≡ into.old.items ++ result_text (option_copied kind.entry)) }
{
    match kind {
        Some(kind) => put_type(into, kind),
        None => put_word(into, Terminal::Void),
    }
}

fn put_throws(into: &mut Vec<u8>, throws: Option<&Vec<Field>>) -> Result<(), AllocError>
    ensures { OnOk result (into.new.items ≡ into.old.items ++ maybe_text (λ v. throws_text v.items) (option_copied throws.entry)) }
{
    match throws {
        Some(fields) => {
            into.extend_from_slice(b" ")?;
            put_spaced_word(into, Terminal::Throws)?;
            put_arguments(into, fields.as_slice())
        }
        None => Ok(()),
    }
}

#[tactic(auto, unfolding(crate::specs::Printed::signature_text))]
fn put_signature(into: &mut Vec<u8>, function: &Function) -> Result<(), AllocError>
    ensures { OnOk result (into.new.items ≡ into.old.items ++ signature_text function.now) }
{
    put_name(into, &function.name)?;
    put_arguments(into, function.arguments.as_slice())?;
    put_throws(into, function.throws.as_ref())
}

#[tactic(auto, unfolding(crate::specs::Printed::function_text))]
fn put_function(into: &mut Vec<u8>, function: &Function) -> Result<(), AllocError>
    ensures { OnOk result (into.new.items ≡ into.old.items ++ function_text function.now) }
{
    put_oneway(into, function.oneway)?;
    put_result(into, function.result.as_ref())?;
    into.extend_from_slice(b" ")?;
    put_signature(into, function)
}

fn put_function_line(into: &mut Vec<u8>, function: &Function) -> Result<(), AllocError>
    ensures { OnOk result (into.new.items ≡ into.old.items ++ function_line function.now) }
{
    into.extend_from_slice(b"  ")?;
    put_function(into, function)?;
    into.extend_from_slice(b"\n")
}

fn put_functions(into: &mut Vec<u8>, functions: &[Function]) -> Result<(), AllocError>
    ensures { OnOk result (into.new.items ≡ into.old.items ++ flat_map function_line functions.now) }
{
    for function in functions {
        put_function_line(into, function)?;
    }
    Ok(())
}

fn put_parent(into: &mut Vec<u8>, parent: Option<&Name>) -> Result<(), AllocError>
    ensures { OnOk result (into.new.items ≡ into.old.items ++ maybe_text parent_text (option_copied parent.entry)) }
{
    match parent {
        Some(name) => {
            into.extend_from_slice(b" ")?;
            put_spaced_word(into, Terminal::Extends)?;
            put_name(into, name)
        }
        None => Ok(()),
    }
}

#[tactic(auto, unfolding(crate::specs::Printed::service_text))]
fn put_service(into: &mut Vec<u8>, service: &Service) -> Result<(), AllocError>
    ensures { OnOk result (into.new.items ≡ into.old.items ++ service_text service.now) }
{
    into.extend_from_slice(b"\n")?;
    put_spaced_word(into, Terminal::Service)?;
    put_name(into, &service.name)?;
    put_parent(into, service.parent.as_ref())?;
    put_opening(into)?;
    put_functions(into, service.functions.as_slice())?;
    put_ending(into)
}

/// Appends a definition.
#[tactic(auto, unfolding(crate::specs::Printed::definition_text))]
pub(crate) fn put_definition(into: &mut Vec<u8>, definition: &Definition) -> Result<(), AllocError>
    ensures { OnOk result (into.new.items ≡ into.old.items ++ definition_text definition.now) }
{
    match definition {
        Definition::Const(constant) => put_const(into, constant),
        Definition::Typedef(typedef) => put_typedef(into, typedef),
        Definition::Enum(enumeration) => put_enum(into, enumeration),
        Definition::Struct(structure) => put_struct(into, structure),
        Definition::Service(service) => put_service(into, service),
    }
}
