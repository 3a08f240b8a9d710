//! What is kept of the parts of a value, one by one: steps of loops, so that a proof meets the dropping of what isn't kept only here.

ghost use Rattle.std.specs.Prelude.{◌≡◌, ◌++◌, ◌∷◌, [], ℕ, map, IfOk, IfErr, OnOk, MatchResult};
ghost use Rattle.std.specs.Option.{option_map};
ghost use Rattle.idl_include.specs.ConstExpr.{place_of_const};
ghost use Rattle.thrift_value.specs.TreeOf.{tree_of, field_tree, field_trees};
ghost use Rattle.thrift_value.specs.Tree.{Tree, FieldTrees};
ghost use Rattle.schema.specs.SchemaOf.{plain_field};
ghost use Rattle.idl_include.specs.DeclaredIn.{value_in};
ghost use Rattle.check_model.specs.Worths.{Worth};
ghost use Rattle.check_model.specs.Evaluation.{field_of_key, struct_numbered, union_worth, with_field, missing_worth, default_worth};
ghost use Rattle.idl_const.specs.FieldEntries.{entry_in, entry_id, given_in_memory, HasFieldId, fields_in_front};
ghost use Rattle.idl_const.specs.Flaws.{flaw_of, AnswersWorth};

use crate::faults::{ConstFault, ConstStop};
use crate::ground::{FieldEntry, Ground};
use idl_parser::ConstTree;
use idl_token::Place;
use schema::{FieldDesc, Need};
use thrift_value::Value;

/// Adds one at the end of a list, where it was made.
pub(crate) fn keep(list: &mut Vec<Value>, made: Result<Value, ConstStop>) -> Result<(), ConstStop>
    ensures { MatchResult made (λ one. OnOk result (list.new.items ≡ list.old.items ++ one ∷ []) × IfErr result (λ stop. stop.fault ≡ ConstFault.NoMemory))
        (λ stop. result ≡ Err stop) }
{
    let one = made?;
    list.push(one)?;
    Ok(())
}

/// Adds one behind something else, at the end of a list, where it was made.
pub(crate) fn keep_beside<A: Drop>(
    list: &mut Vec<(A, Value)>,
    first: A,
    made: Result<Value, ConstStop>,
) -> Result<(), ConstStop>
    ensures { MatchResult made (λ one. OnOk result (list.new.items ≡ list.old.items ++ (first, one) ∷ []) × IfErr result (λ stop. stop.fault ≡ ConstFault.NoMemory))
        (λ stop. result ≡ Err stop) }
{
    let one = made?;
    list.push((first, one))?;
    Ok(())
}

/// Adds a field at the end of a list, where it was made and has a value.
pub(crate) fn keep_field(
    list: &mut Vec<(i16, Value)>,
    id: i16,
    made: Result<Option<Value>, ConstStop>,
) -> Result<(), ConstStop>
    ensures { MatchResult made (λ one. OnOk result ((more : FieldTrees) → fields_in_front list.new.items more ≡ fields_in_front list.old.items (with_field id (option_map tree_of one) more)) × IfErr result (λ stop. stop.fault ≡ ConstFault.NoMemory))
        (λ stop. result ≡ Err stop) }
{
    let Some(one) = made? else {
        return Ok(());
    };
    list.push((id, one))?;
    Ok(())
}

/// A value that is there.
pub(crate) fn some(made: Result<Value, ConstStop>) -> Result<Option<Value>, ConstStop>
    ensures { MatchResult made (λ value. result ≡ Ok (Some value)) (λ stop. result ≡ Err stop) }
{
    match made {
        Ok(value) => Ok(Some(value)),
        Err(stop) => Err(stop),
    }
}

/// The id of an entry.
pub(crate) fn entry_id(entry: &FieldEntry<'_>) -> i16
    ensures { result ≡ entry_id (entry_in entry.now) }
{
    match entry {
        FieldEntry::Given(id, _) => *id,
        FieldEntry::Owed(field, _) => field.id,
    }
}

/// A field that is neither given nor has a default.
pub(crate) fn missing(at: Place, need: Need) -> Result<Option<Value>, ConstStop>
    ensures { (count : ℕ) → AnswersWorth (option_map tree_of) result count (missing_worth at count need) }
{
    match need {
        Need::Required => Err(ConstStop {
            at,
            fault: ConstFault::MissingField,
        }),
        Need::Default | Need::Optional => Ok(None),
    }
}

/// The fields of a union: exactly one that is given.
pub(crate) fn union_fields(
    at: Place,
    given: Vec<(i16, Value)>,
) -> Result<Vec<(i16, Value)>, ConstStop>
    ensures { (count : ℕ) → AnswersWorth (λ made. field_trees (map field_tree made.items)) result count (union_worth (map given_in_memory given.items) at count) }
{
    if given.len() != 1 {
        return Err(ConstStop {
            at,
            fault: ConstFault::WrongKind,
        });
    }
    Ok(given)
}

/// The place where a value begins.
fn place_of(tree: &ConstTree) -> Place
    ensures { result ≡ place_of_const (value_in tree.now) }
{
    match tree {
        ConstTree::Int(int) => int.at,
        ConstTree::Double(double) => double.at,
        ConstTree::Literal(literal) => literal.at,
        ConstTree::Name(name) => name.at,
        ConstTree::List(at, _) => *at,
        ConstTree::Map(at, _) => *at,
    }
}

/// The field of the struct of some number that a key names.
pub(crate) fn field_of_key<'a, G: Ground>(
    ground: &'a G,
    which: u32,
    key: &ConstTree,
) -> Result<&'a FieldDesc, ConstStop>
    requires { G.right ground.now }
    ensures worth { (count : ℕ) → AnswersWorth (λ f. plain_field f.now) result count
        (field_of_key (struct_numbered (G.setting ground.now).schema which).fields count (value_in key.now)) }
    ensures known { IfOk result (λ f. HasFieldId (struct_numbered (G.setting ground.now).schema which).fields f.now.id) }
{
    let ConstTree::Literal(literal) = key else {
        return Err(ConstStop {
            at: place_of(key),
            fault: ConstFault::WrongKind,
        });
    };
    match ground.field_named(which, literal.bytes.as_slice()) {
        Some(field) => Ok(field),
        None => Err(ConstStop {
            at: literal.at,
            fault: ConstFault::UnknownField,
        }),
    }
}
