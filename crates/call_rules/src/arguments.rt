//! The arguments of a call.

ghost use Rattle.std.specs.Prelude.{◌≡◌, map};
ghost use Rattle.std.specs.Option.{option_map, option_copied};
ghost use Rattle.thrift_value.specs.TreeOf.{tree_of, field_tree, field_trees};
ghost use Rattle.call_rules.specs.Arguments.{fields_in, value_with_id, first_value, argument, number_passed, bytes_passed, fields_passed};

use thrift_value::Value;

/// The fields of a struct; what is no struct has none.
#[tactic(auto, using(thrift_value::proofs::Trees::tree_equations))]
fn fields_in(args: &Value) -> &[(i16, Value)]
    ensures { field_trees (map field_tree result.now) ≡ fields_in (tree_of args.now) }
{
    match args {
        Value::Struct(fields) => fields.as_slice(),
        _ => &[],
    }
}

/// The value of the first field with this id.
fn value_with_id(fields: &[(i16, Value)], id: i16) -> Option<&Value>
    ensures { option_map tree_of (option_copied result) ≡ value_with_id id (field_trees (map field_tree fields.now)) }
{
    for (number, value) in fields {
        if id == *number {
            return Some(value);
        }
    }
    None
}

/// The value of the first argument.
pub fn first_value(args: &Value) -> Option<&Value>
    ensures { option_map tree_of (option_copied result) ≡ first_value (fields_in (tree_of args.now)) }
{
    let (_, value) = fields_in(args).first()?;
    Some(value)
}

/// An argument, where it is present.
pub fn argument(args: &Value, id: i16) -> Option<&Value>
    ensures { option_map tree_of (option_copied result) ≡ argument id (tree_of args.now) }
{
    value_with_id(fields_in(args), id)
}

/// The number that is passed: 0 where it is absent, and nothing where it is no i32.
#[tactic(auto, using(thrift_value::proofs::Trees::tree_equations))]
pub fn number_passed(value: Option<&Value>) -> Option<i32>
    ensures { result ≡ number_passed (option_map tree_of (option_copied value.entry)) }
{
    match value {
        None => Some(0),
        Some(Value::I32(number)) => Some(*number),
        Some(_) => None,
    }
}

/// The bytes that are passed: nothing where they are absent or no bytes.
#[tactic(auto, using(thrift_value::proofs::Trees::tree_equations))]
pub fn bytes_passed(value: Option<&Value>) -> Option<&[u8]>
    ensures { option_map (λ bytes. bytes.now) result ≡ bytes_passed (option_map tree_of (option_copied value.entry)) }
{
    match value {
        Some(Value::Bytes(bytes)) => Some(bytes.as_slice()),
        _ => None,
    }
}

/// The fields of the struct that is passed: nothing where it is absent or no struct.
#[tactic(auto, using(thrift_value::proofs::Trees::tree_equations))]
pub fn fields_passed(value: Option<&Value>) -> Option<&[(i16, Value)]>
    ensures { option_map (λ fields. field_trees (map field_tree fields.now)) result
        ≡ fields_passed (option_map tree_of (option_copied value.entry)) }
{
    match value {
        Some(Value::Struct(fields)) => Some(fields.as_slice()),
        _ => None,
    }
}

/// The number of a field: 0 where it is absent, and nothing where it is no i32.
pub fn number_with_id(fields: &[(i16, Value)], id: i16) -> Option<i32>
    ensures { result ≡ number_passed (value_with_id id (field_trees (map field_tree fields.now))) }
{
    number_passed(value_with_id(fields, id))
}
