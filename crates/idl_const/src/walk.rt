//! The walk over a constant value: once a level, and against a type.

ghost use Rattle.std.specs.Prelude.{◌≡◌, map, IfOk, OnOk};
ghost use Rattle.std.specs.Option.{option_map};
ghost use Rattle.schema.specs.PlainKind.{kind_of, kind_struct, kind_map};
ghost use Rattle.thrift_value.specs.TreeOf.{tree_of, pair_tree, field_tree, field_trees, item_trees, pair_trees};
ghost use Rattle.idl_include.specs.ConstExpr.{name_const, list_const, map_const};
ghost use Rattle.idl_include.specs.DeclaredIn.{value_in, name_in, items_in, entries_in};
ghost use Rattle.check_model.specs.Worths.{and_next, seen_at};
ghost use Rattle.check_model.specs.Evaluation.{worth_by, items_by, pairs_by, given_by, struct_numbered, made_fields, default_of};
ghost use Rattle.idl_const.specs.FieldEntries.{entry_in, given_in_memory, entry_worth, entries_worth, AreGivenFor};
ghost use Rattle.idl_const.specs.Flaws.{AnswersWorth};
ghost use Rattle.idl_const.specs.Given.{both_in};
ghost use Rattle.idl_const.specs.Marks.{entered_where, worth_where};

use crate::chains::ChainEnd;
use crate::containers::{element_kind, map_value, row_value, takes_braces, takes_brackets};
use crate::faults::{ConstFault, ConstStop};
use crate::ground::{FieldEntry, Ground};
use crate::keeping::{
    entry_id, field_of_key, keep, keep_beside, keep_field, missing, some, union_fields,
};
use crate::marks::{enter, mark};
use crate::progress::{Progress, charge, opened, put_at, single, unfit};
use crate::scalars::{double_value, enum_value, int_value};
use crate::texts::{charge_keys, copied_literal};
use idl_names::ConstName;
use idl_parser::{ConstTree, Name};
use idl_token::Place;
use schema::{StructKind, TypeDesc};
use std::alloc::Global;
use std::collections::VecDeque;
use thrift_value::{Fields, Value};

/// A value that stands in the file of some number, against a type, with so many levels left.
#[cycle(walk)]
pub(crate) fn value<G: Ground>(
    ground: &G,
    alloc: Global,
    work: &mut Progress,
    file: u32,
    kind: &TypeDesc,
    levels: u32,
    tree: &ConstTree,
) -> Result<Value, ConstStop>
    requires { G.right ground.now }
    ensures worth { AnswersWorth tree_of result work.new.values
        (worth_by (G.setting ground.now) (worth_where (G.setting ground.now) work.old.free.items) file (kind_of kind.now) levels work.old.values (value_in tree.now)) }
    ensures free { OnOk result (work.new.free.items ≡ work.old.free.items) }
{
    if let ConstTree::Name(name) = tree {
        return named(ground, alloc, work, file, kind, levels, name);
    }
    unnamed(ground, alloc, work, file, kind, levels, tree)
}

/// A value that is no name.
#[cycle(walk)]
fn unnamed<G: Ground>(
    ground: &G,
    alloc: Global,
    work: &mut Progress,
    file: u32,
    kind: &TypeDesc,
    levels: u32,
    tree: &ConstTree,
) -> Result<Value, ConstStop>
    requires { G.right ground.now }
    ensures worth { AnswersWorth tree_of result work.new.values
        (worth_by (G.setting ground.now) (worth_where (G.setting ground.now) work.old.free.items) file (kind_of kind.now) levels work.old.values (value_in tree.now)) }
    ensures free { OnOk result (work.new.free.items ≡ work.old.free.items) }
{
    match tree {
        ConstTree::Int(int) => single(work, int.at, int_value(kind, int.value)),
        ConstTree::Double(double) => single(work, double.at, double_value(kind, &double.text)),
        ConstTree::Literal(literal) => copied_literal(alloc, work, kind, literal),
        ConstTree::Name(name) => Err(ConstStop {
            at: name.at,
            fault: ConstFault::NoMemory,
        }),
        ConstTree::List(at, items) => {
            bracketed(
                ground,
                alloc,
                work,
                file,
                kind,
                levels,
                *at,
                items.as_slice(),
            )
        }
        ConstTree::Map(at, entries) => {
            braced(
                ground,
                alloc,
                work,
                file,
                kind,
                levels,
                *at,
                entries.as_slice(),
            )
        }
    }
}

/// A name.
#[cycle(walk)]
fn named<G: Ground>(
    ground: &G,
    alloc: Global,
    work: &mut Progress,
    file: u32,
    kind: &TypeDesc,
    levels: u32,
    name: &Name,
) -> Result<Value, ConstStop>
    requires { G.right ground.now }
    ensures worth { AnswersWorth tree_of result work.new.values
        (worth_by (G.setting ground.now) (worth_where (G.setting ground.now) work.old.free.items) file (kind_of kind.now) levels work.old.values (name_const (name_in name.now))) }
    ensures free { OnOk result (work.new.free.items ≡ work.old.free.items) }
{
    charge(work, name.at, name.text.as_slice().len())?;
    match ground.meaning(file, name.text.as_slice()) {
        None => Err(ConstStop {
            at: name.at,
            fault: ConstFault::UnknownName,
        }),
        Some(ConstName::Number(which, number)) => {
            single(work, name.at, enum_value(kind, which, number))
        }
        Some(ConstName::Value(which)) => {
            given(ground, alloc, work, name.at, which, kind, levels)
        }
    }
}

/// The given value of some number, for who looks from a place: what stands at the end of its chain.
#[cycle(walk)]
pub(crate) fn given<G: Ground>(
    ground: &G,
    alloc: Global,
    work: &mut Progress,
    at: Place,
    which: u32,
    kind: &TypeDesc,
    levels: u32,
) -> Result<Value, ConstStop>
    requires { G.right ground.now }
    ensures worth { AnswersWorth tree_of result work.new.values
        (seen_at at (worth_where (G.setting ground.now) work.old.free.items which (kind_of kind.now) levels work.old.values)) }
    ensures free { OnOk result (work.new.free.items ≡ work.old.free.items) }
{
    match ground.chain_end(which) {
        None => Err(ConstStop {
            at,
            fault: ConstFault::ConstCycle,
        }),
        Some(ChainEnd::Unknown) => Err(ConstStop {
            at,
            fault: ConstFault::UnknownName,
        }),
        Some(ChainEnd::Number(of, number)) => single(work, at, enum_value(kind, of, number)),
        Some(ChainEnd::Value(last)) => entered(ground, alloc, work, at, last, kind, levels),
    }
}

/// The given value of some number, which is no name, for who looks from a place. It is under evaluation meanwhile.
#[cycle(walk)]
fn entered<G: Ground>(
    ground: &G,
    alloc: Global,
    work: &mut Progress,
    at: Place,
    which: u32,
    kind: &TypeDesc,
    levels: u32,
) -> Result<Value, ConstStop>
    requires { G.right ground.now }
    ensures worth { AnswersWorth tree_of result work.new.values
        (seen_at at (entered_where (G.setting ground.now) work.old.free.items which (kind_of kind.now) levels work.old.values)) }
    ensures free { OnOk result (work.new.free.items ≡ work.old.free.items) }
{
    let Some((file, tree)) = ground.given(which) else {
        return Err(ConstStop {
            at,
            fault: ConstFault::ConstCycle,
        });
    };
    enter(work, which, at)?;
    let made = put_at(at, unnamed(ground, alloc, work, file, kind, levels, tree));
    mark(&mut work.free, which, true);
    made
}

/// A list in brackets.
#[cycle(walk)]
fn bracketed<G: Ground>(
    ground: &G,
    alloc: Global,
    work: &mut Progress,
    file: u32,
    kind: &TypeDesc,
    levels: u32,
    at: Place,
    trees: &[ConstTree],
) -> Result<Value, ConstStop>
    requires { G.right ground.now }
    ensures worth { AnswersWorth tree_of result work.new.values
        (worth_by (G.setting ground.now) (worth_where (G.setting ground.now) work.old.free.items) file (kind_of kind.now) levels work.old.values
        (list_const at (items_in (map value_in trees.now)))) }
    ensures free { OnOk result (work.new.free.items ≡ work.old.free.items) }
{
    let left = opened(work, at, takes_brackets(kind), levels)?;
    let made = items(ground, alloc, work, file, element_kind(kind), left, trees)?;
    Ok(row_value(alloc, kind, made)?)
}

/// The values of a list, each against one type.
#[cycle(walk)]
fn items<G: Ground>(
    ground: &G,
    alloc: Global,
    work: &mut Progress,
    file: u32,
    kind: &TypeDesc,
    levels: u32,
    trees: &[ConstTree],
) -> Result<Vec<Value>, ConstStop>
    requires { G.right ground.now }
    ensures worth { AnswersWorth (λ made. item_trees (map tree_of made.items)) result work.new.values
        (items_by (G.setting ground.now) (worth_where (G.setting ground.now) work.old.free.items) file (kind_of kind.now) levels work.old.values
        (items_in (map value_in trees.now))) }
    ensures free { OnOk result (work.new.free.items ≡ work.old.free.items) }
{
    let mut made = Vec::new(alloc);
    for tree in trees {
        let one = value(ground, alloc, work, file, kind, levels, tree);
        keep(&mut made, one)?;
    }
    Ok(made)
}

/// What stands in braces: pairs of a map, or fields of a struct.
#[cycle(walk)]
fn braced<G: Ground>(
    ground: &G,
    alloc: Global,
    work: &mut Progress,
    file: u32,
    kind: &TypeDesc,
    levels: u32,
    at: Place,
    entries: &[(ConstTree, ConstTree)],
) -> Result<Value, ConstStop>
    requires { G.right ground.now }
    ensures worth { AnswersWorth tree_of result work.new.values
        (worth_by (G.setting ground.now) (worth_where (G.setting ground.now) work.old.free.items) file (kind_of kind.now) levels work.old.values
        (map_const at (entries_in (map both_in entries.now)))) }
    ensures free { OnOk result (work.new.free.items ≡ work.old.free.items) }
{
    if !takes_braces(kind) {
        return unfit(work, at, levels);
    }
    match kind {
        TypeDesc::Map(key, value) => mapped(
            ground, alloc, work, file, key, value, levels, at, entries,
        ),
        TypeDesc::Struct(which) => structured(
            ground, alloc, work, file, *which, levels, at, entries,
        ),
        _ => Err(ConstStop {
            at,
            fault: ConstFault::NoMemory,
        }),
    }
}

/// Pairs of a map.
#[cycle(walk)]
fn mapped<G: Ground>(
    ground: &G,
    alloc: Global,
    work: &mut Progress,
    file: u32,
    key: &TypeDesc,
    value: &TypeDesc,
    levels: u32,
    at: Place,
    entries: &[(ConstTree, ConstTree)],
) -> Result<Value, ConstStop>
    requires { G.right ground.now }
    ensures worth { AnswersWorth tree_of result work.new.values
        (worth_by (G.setting ground.now) (worth_where (G.setting ground.now) work.old.free.items) file (kind_map (kind_of key.now) (kind_of value.now)) levels work.old.values
        (map_const at (entries_in (map both_in entries.now)))) }
    ensures free { OnOk result (work.new.free.items ≡ work.old.free.items) }
{
    let left = opened(work, at, true, levels)?;
    let made = pairs(ground, alloc, work, file, key, value, left, entries)?;
    Ok(map_value(alloc, key, value, made)?)
}

/// Keys and values of a map, each against its type.
#[cycle(walk)]
fn pairs<G: Ground>(
    ground: &G,
    alloc: Global,
    work: &mut Progress,
    file: u32,
    key: &TypeDesc,
    held: &TypeDesc,
    levels: u32,
    entries: &[(ConstTree, ConstTree)],
) -> Result<Vec<(Value, Value)>, ConstStop>
    requires { G.right ground.now }
    ensures worth { AnswersWorth (λ made. pair_trees (map pair_tree made.items)) result work.new.values
        (pairs_by (G.setting ground.now) (worth_where (G.setting ground.now) work.old.free.items) file (kind_of key.now) (kind_of held.now) levels work.old.values
        (entries_in (map both_in entries.now))) }
    ensures free { OnOk result (work.new.free.items ≡ work.old.free.items) }
{
    let mut made = Vec::new(alloc);
    for (first, second) in entries {
        let first = value(ground, alloc, work, file, key, levels, first)?;
        let second = value(ground, alloc, work, file, held, levels, second);
        keep_beside(&mut made, first, second)?;
    }
    Ok(made)
}

/// A struct, a union or an exception.
#[cycle(walk)]
fn structured<G: Ground>(
    ground: &G,
    alloc: Global,
    work: &mut Progress,
    file: u32,
    which: u32,
    levels: u32,
    at: Place,
    entries: &[(ConstTree, ConstTree)],
) -> Result<Value, ConstStop>
    requires { G.right ground.now }
    ensures worth { AnswersWorth tree_of result work.new.values
        (worth_by (G.setting ground.now) (worth_where (G.setting ground.now) work.old.free.items) file (kind_struct which) levels work.old.values
        (map_const at (entries_in (map both_in entries.now)))) }
    ensures free { OnOk result (work.new.free.items ≡ work.old.free.items) }
{
    let left = opened(work, at, true, levels)?;
    let made = fields(ground, alloc, work, file, which, left, at, entries)?;
    Ok(Value::Struct(Fields::new(made)))
}

/// The fields of a struct: those that are given, and the defaults of others.
#[cycle(walk)]
fn fields<G: Ground>(
    ground: &G,
    alloc: Global,
    work: &mut Progress,
    file: u32,
    which: u32,
    levels: u32,
    at: Place,
    entries: &[(ConstTree, ConstTree)],
) -> Result<Vec<(i16, Value)>, ConstStop>
    requires { G.right ground.now }
    ensures worth { let s = G.setting ground.now in let named = worth_where s work.old.free.items in
        AnswersWorth (λ made. field_trees (map field_tree made.items)) result work.new.values
        (and_next (given_by s named file (struct_numbered s.schema which).fields levels work.old.values (entries_in (map both_in entries.now))) (λ given m.
        made_fields named (default_of s.program which) at levels (struct_numbered s.schema which).kind (struct_numbered s.schema which).fields given m)) }
    ensures free { OnOk result (work.new.free.items ≡ work.old.free.items) }
{
    charge_keys(work, entries)?;
    let given = given_fields(ground, alloc, work, file, which, levels, entries)?;
    if ground.fields_kind(which) == StructKind::Union {
        return union_fields(at, given);
    }
    let row = ground.entries(alloc, which, given)?;
    owed_fields(ground, alloc, work, at, levels, row)
}

/// The values that are given for a struct's fields, in order.
#[cycle(walk)]
fn given_fields<G: Ground>(
    ground: &G,
    alloc: Global,
    work: &mut Progress,
    file: u32,
    which: u32,
    levels: u32,
    entries: &[(ConstTree, ConstTree)],
) -> Result<Vec<(i16, Value)>, ConstStop>
    requires { G.right ground.now }
    ensures worth { let s = G.setting ground.now in AnswersWorth (λ given. map given_in_memory given.items) result work.new.values
        (given_by s (worth_where s work.old.free.items) file (struct_numbered s.schema which).fields levels work.old.values (entries_in (map both_in entries.now))) }
    ensures known { IfOk result (λ given. AreGivenFor (struct_numbered (G.setting ground.now).schema which).fields (map given_in_memory given.items)) }
    ensures free { OnOk result (work.new.free.items ≡ work.old.free.items) }
{
    let mut given = Vec::new(alloc);
    for (key, tree) in entries {
        let field = field_of_key(ground, which, key)?;
        let one = value(ground, alloc, work, file, &field.kind, levels, tree);
        keep_beside(&mut given, field.id, one)?;
    }
    Ok(given)
}

/// The fields that a literal of a struct is made of.
#[cycle(walk)]
fn owed_fields<G: Ground>(
    ground: &G,
    alloc: Global,
    work: &mut Progress,
    at: Place,
    levels: u32,
    row: VecDeque<FieldEntry<'_>>,
) -> Result<Vec<(i16, Value)>, ConstStop>
    requires { G.right ground.now }
    ensures worth { AnswersWorth (λ made. field_trees (map field_tree made.items)) result work.new.values
        (entries_worth (worth_where (G.setting ground.now) work.old.free.items) at levels work.old.values (map entry_in row.entry.items)) }
    ensures free { OnOk result (work.new.free.items ≡ work.old.free.items) }
{
    let mut row = row;
    let mut made = Vec::new(alloc);
    while let Some(entry) = row.pop_front() {
        let id = entry_id(&entry);
        let one = entry_value(ground, alloc, work, at, levels, entry);
        keep_field(&mut made, id, one)?;
    }
    Ok(made)
}

/// The value of a field that is given, or its default, if it has one.
#[cycle(walk)]
fn entry_value<G: Ground>(
    ground: &G,
    alloc: Global,
    work: &mut Progress,
    at: Place,
    levels: u32,
    part: FieldEntry<'_>,
) -> Result<Option<Value>, ConstStop>
    requires { G.right ground.now }
    ensures worth { AnswersWorth (option_map tree_of) result work.new.values
        (entry_worth (worth_where (G.setting ground.now) work.old.free.items) at levels work.old.values (entry_in part.entry)) }
    ensures free { OnOk result (work.new.free.items ≡ work.old.free.items) }
{
    match part {
        FieldEntry::Given(_, value) => Ok(Some(value)),
        FieldEntry::Owed(field, Some(which)) => {
            some(given(ground, alloc, work, at, which, &field.kind, levels))
        }
        FieldEntry::Owed(field, None) => missing(at, field.need),
    }
}
