//! Reads values, level by level.
ghost use Rattle.std.specs.Prelude.{◌≡◌, ◌++◌, ◌∷◌, ◌||◌, [], ℕ, List, Result, map, MatchResult, OnOk, None, Some, Ok, Err, int_lt, not};
ghost use Rattle.std.specs.Option.{option_map, option_copied};
ghost use Rattle.thrift_value.specs.Tree.{Tree};
ghost use Rattle.thrift_value.specs.TreeOf.{tree_of, field_tree, pair_tree};
ghost use Rattle.value_text.specs.Answering.{Gives};
ghost use Rattle.value_text.specs.InOrder.{in_order};
ghost use Rattle.value_text.specs.Reading.{assigned_at, comes_behind, container_at, deeper_at, field_text_at, id_at, id_comes_behind, item_at, last_key, list_value_at, map_at, most_rounds, pair_text_at, set_at, struct_text_at, value_text_at};
ghost use Rattle.value_text.specs.Rows.{last_of, list_at, row_at, rows_at};

use crate::form::{Container, Form, form_at, has_level};
use crate::fronts::{integer_at, next_at, past, rest_behind};
use crate::heads::{head_at, map_head_at};
use crate::leaves::leaf_at;
use crate::stop::TextStop;
use std::alloc::{AllocError, Global};
use thrift_value::{Fields, Items, Pairs, Tag, Value};

/// The value in front, of the tag that is wanted or of any, where so many levels may be opened, and what is left behind it; or how
/// many bytes are left at the fault. It recurses once a level.
#[cycle(reading)]
#[tactic(auto, unfolding(crate::specs::Reading::value_text_at, crate::specs::Reading::value_by))]
pub fn value_at(
    alloc: Global,
    levels: u32,
    wanted: Option<Tag>,
    text: &[u8],
) -> Result<(Value, &[u8]), TextStop>
    ensures { Gives (λ r. (tree_of r.0, r.1.now)) result (value_text_at most_rounds levels wanted text.now) }
{
    let form = form_at(wanted, text)?;
    match form {
        Form::Alone(leaf) => leaf_at(alloc, wanted, leaf, text),
        Form::Holding(container) => deeper_at(alloc, levels, container, text),
    }
}

/// A value that holds others, where so many levels may be opened.
#[cycle(reading)]
fn deeper_at(
    alloc: Global,
    levels: u32,
    container: Container,
    text: &[u8],
) -> Result<(Value, &[u8]), TextStop>
    ensures { Gives (λ r. (tree_of r.0, r.1.now)) result (deeper_at most_rounds levels container text.now) }
{
    if levels == 0 {
        return Err(TextStop::Left(text.len()));
    }
    container_at(alloc, levels - 1, container, text)
}

/// A value that holds others, which may open so many levels.
#[cycle(reading)]
fn container_at(
    alloc: Global,
    levels: u32,
    container: Container,
    text: &[u8],
) -> Result<(Value, &[u8]), TextStop>
    ensures { Gives (λ r. (tree_of r.0, r.1.now)) result (container_at most_rounds levels (value_text_at most_rounds levels) container text.now) }
{
    match container {
        Container::Struct => struct_at(alloc, levels, text),
        Container::Map => map_at(alloc, levels, text),
        Container::Set => set_at(alloc, levels, text),
        Container::List => list_value_at(alloc, levels, text),
    }
}

/// Adds one at the end of a list: a function of its own, so that a proof meets the dropping of what wasn't kept only here.
fn keep<T: Drop>(list: &mut Vec<T>, item: T) -> Result<(), AllocError>
    ensures { OnOk result (list.new.items ≡ list.old.items ++ item ∷ []) }
{
    list.push(item)?;
    Ok(())
}

/// An entry, with what stands behind it.
fn joined<'a, T: Drop>(
    entry: T,
    next: Result<(bool, &'a [u8]), TextStop>,
) -> Result<(T, bool, &'a [u8]), TextStop>
    ensures { MatchResult next.entry (λ n. result ≡ Ok (entry, n.0, n.1)) (λ stop. result ≡ Err stop) }
{
    match next {
        Ok((more, rest)) => Ok((entry, more, rest)),
        Err(stop) => Err(stop),
    }
}

/// Whether an id is below another.
fn is_below(low: &i16, high: i16) -> bool
    ensures { result ≡ int_lt low.now high }
{
    let low = *low;
    low < high
}

/// Whether an id comes behind that of the last field.
fn id_comes_behind(before: &[(i16, Value)], id: i16) -> bool
    ensures { result ≡ id_comes_behind (last_of (map field_tree before.now)) id }
{
    match before.split_last() {
        None => true,
        Some((last, _)) => is_below(&last.0, id),
    }
}

/// The id of a field behind others.
#[tactic(auto, unfolding(crate::specs::Reading::id_at))]
fn id_at<'a>(before: &[(i16, Value)], text: &'a [u8]) -> Result<(i16, &'a [u8]), TextStop>
    ensures { Gives (λ r. (r.0, r.1.now)) result (id_at (last_of (map field_tree before.now)) text.now) }
{
    let (n, rest) = integer_at(0x7fff, text)?;
    let id = n as i16;
    if id_comes_behind(before, id) {
        return Ok((id, rest));
    }
    Err(TextStop::Left(rest.len()))
}

/// Reads `=` and a value.
#[cycle(reading)]
#[tactic(auto, unfolding(crate::specs::Reading::assigned_at))]
fn assigned_at(
    alloc: Global,
    levels: u32,
    wanted: Option<Tag>,
    text: &[u8],
) -> Result<(Value, &[u8]), TextStop>
    ensures { Gives (λ r. (tree_of r.0, r.1.now)) result (assigned_at (value_text_at most_rounds levels) wanted text.now) }
{
    let rest = past(b"=", text)?;
    value_at(alloc, levels, wanted, rest)
}

/// A field behind others, its id and its value, and what stands behind it.
#[cycle(reading)]
fn field_row<'a>(
    alloc: Global,
    levels: u32,
    before: &[(i16, Value)],
    text: &'a [u8],
) -> Result<((i16, Value), bool, &'a [u8]), TextStop>
    ensures { Gives (λ r. (field_tree r.0, r.1, r.2.now)) result
        (row_at (field_text_at (value_text_at most_rounds levels)) 125 (last_of (map field_tree before.now)) text.now) }
{
    let (id, rest) = id_at(before, text)?;
    let (value, rest) = assigned_at(alloc, levels, None, rest)?;
    joined((id, value), next_at(b'}', rest))
}

/// Fields with commas between them, one at least, up to the brace that closes them.
#[cycle(reading)]
fn field_rows(
    alloc: Global,
    levels: u32,
    text: &[u8],
) -> Result<(Vec<(i16, Value)>, &[u8]), TextStop>
    ensures { Gives (λ r. (map field_tree r.0.items, r.1.now)) result
        (rows_at (field_text_at (value_text_at most_rounds levels)) 125 most_rounds None text.now) }
{
    let mut made = Vec::new(alloc);
    let mut rest = text;
    for step in 0..usize::MAX {
        let (entry, more, behind) = field_row(alloc, levels, made.as_slice(), rest)?;
        keep(&mut made, entry)?;
        if !more {
            return Ok((made, behind));
        }
        rest = behind;
    }
    Err(TextStop::NoMemory)
}

/// The fields of a struct, if any, up to the brace that closes them.
#[cycle(reading)]
fn fields_at(
    alloc: Global,
    levels: u32,
    text: &[u8],
) -> Result<(Vec<(i16, Value)>, &[u8]), TextStop>
    ensures { Gives (λ r. (map field_tree r.0.items, r.1.now)) result
        (list_at (field_text_at (value_text_at most_rounds levels)) 125 most_rounds text.now) }
{
    if let Some(rest) = rest_behind(b'}', text) {
        return Ok((Vec::new(alloc), rest));
    }
    field_rows(alloc, levels, text)
}

/// A struct.
#[cycle(reading)]
#[tactic(auto, unfolding(crate::specs::Reading::struct_text_at), using(thrift_value::proofs::Trees::tree_equations))]
fn struct_at(alloc: Global, levels: u32, text: &[u8]) -> Result<(Value, &[u8]), TextStop>
    ensures { Gives (λ r. (tree_of r.0, r.1.now)) result (struct_text_at most_rounds (value_text_at most_rounds levels) text.now) }
{
    let inside = past(b"{", text)?;
    let (fields, rest) = fields_at(alloc, levels, inside)?;
    Ok((Value::Struct(Fields::new(fields)), rest))
}

/// The last of some values.
fn last_item(before: &[Value]) -> Option<&Value>
    ensures { option_map tree_of (option_copied result) ≡ last_of (map tree_of before.now) }
{
    match before.split_last() {
        None => None,
        Some((last, _)) => Some(last),
    }
}

/// The key of the last pair.
fn last_key(before: &[(Value, Value)]) -> Option<&Value>
    ensures { option_map tree_of (option_copied result) ≡ last_key (last_of (map pair_tree before.now)) }
{
    match before.split_last() {
        None => None,
        Some((last, _)) => Some(&last.0),
    }
}

/// Whether a value comes behind a last one.
fn comes_behind(last: Option<&Value>, value: &Value) -> bool
    ensures { result ≡ comes_behind (option_map tree_of (option_copied last.entry)) (tree_of value.now) }
{
    match last {
        None => true,
        Some(last) => last.compare(value).is_lt(),
    }
}

/// Whether a value may stand behind a last one: values that rise come behind it.
fn may_follow(rising: bool, last: Option<&Value>, value: &Value) -> bool
    ensures { result ≡ (not rising || comes_behind (option_map tree_of (option_copied last.entry)) (tree_of value.now)) }
{
    !rising || comes_behind(last, value)
}

/// A value with what is left behind it, where it may stand behind a last one.
fn following<'a>(
    rising: bool,
    last: Option<&Value>,
    value: Value,
    rest: &'a [u8],
) -> Result<(Value, &'a [u8]), TextStop>
    ensures { Gives (λ r. (tree_of r.0, r.1.now)) result
        (in_order rising (option_map tree_of (option_copied last.entry)) (Ok (tree_of value, rest.now))) }
{
    if may_follow(rising, last, &value) {
        return Ok((value, rest));
    }
    Err(TextStop::Left(rest.len()))
}

/// A value that was read, where it comes behind a last one or needn't.
fn in_order<'a>(
    rising: bool,
    last: Option<&Value>,
    read: Result<(Value, &'a [u8]), TextStop>,
) -> Result<(Value, &'a [u8]), TextStop>
    ensures { (meant : Result (Tree × List ℕ) ℕ) → Gives (λ r. (tree_of r.0, r.1.now)) read.entry meant
        → Gives (λ r. (tree_of r.0, r.1.now)) result (in_order rising (option_map tree_of (option_copied last.entry)) meant) }
{
    match read {
        Ok((value, rest)) => following(rising, last, value, rest),
        Err(stop) => Err(stop),
    }
}

/// An element behind others, and what stands behind it; the members of a set rise.
#[cycle(reading)]
fn item_row<'a>(
    alloc: Global,
    levels: u32,
    rising: bool,
    tag: Tag,
    before: &[Value],
    text: &'a [u8],
) -> Result<(Value, bool, &'a [u8]), TextStop>
    ensures { Gives (λ r. (tree_of r.0, r.1, r.2.now)) result
        (row_at (item_at rising tag (value_text_at most_rounds levels)) 93 (last_of (map tree_of before.now)) text.now) }
{
    let read = value_at(alloc, levels, Some(tag), text);
    let (entry, rest) = in_order(rising, last_item(before), read)?;
    joined(entry, next_at(b']', rest))
}

/// Elements with commas between them, one at least, up to the bracket that closes them.
#[cycle(reading)]
fn item_rows(
    alloc: Global,
    levels: u32,
    rising: bool,
    tag: Tag,
    text: &[u8],
) -> Result<(Vec<Value>, &[u8]), TextStop>
    ensures { Gives (λ r. (map tree_of r.0.items, r.1.now)) result
        (rows_at (item_at rising tag (value_text_at most_rounds levels)) 93 most_rounds None text.now) }
{
    let mut made = Vec::new(alloc);
    let mut rest = text;
    for step in 0..usize::MAX {
        let (entry, more, behind) = item_row(alloc, levels, rising, tag, made.as_slice(), rest)?;
        keep(&mut made, entry)?;
        if !more {
            return Ok((made, behind));
        }
        rest = behind;
    }
    Err(TextStop::NoMemory)
}

/// The elements of a set or a list, if any, up to the bracket that closes them.
#[cycle(reading)]
fn items_at(
    alloc: Global,
    levels: u32,
    rising: bool,
    tag: Tag,
    text: &[u8],
) -> Result<(Vec<Value>, &[u8]), TextStop>
    ensures { Gives (λ r. (map tree_of r.0.items, r.1.now)) result
        (list_at (item_at rising tag (value_text_at most_rounds levels)) 93 most_rounds text.now) }
{
    if let Some(rest) = rest_behind(b']', text) {
        return Ok((Vec::new(alloc), rest));
    }
    item_rows(alloc, levels, rising, tag, text)
}

/// A set.
#[cycle(reading)]
#[tactic(auto, unfolding(crate::specs::Reading::set_at), using(thrift_value::proofs::Trees::tree_equations))]
fn set_at(alloc: Global, levels: u32, text: &[u8]) -> Result<(Value, &[u8]), TextStop>
    ensures { Gives (λ r. (tree_of r.0, r.1.now)) result (set_at most_rounds (value_text_at most_rounds levels) text.now) }
{
    let (tag, inside) = head_at(b"set<", text)?;
    let (items, rest) = items_at(alloc, levels, true, tag, inside)?;
    Ok((Value::Set(tag, Items::new(items)), rest))
}

/// A list.
#[cycle(reading)]
#[tactic(auto, unfolding(crate::specs::Reading::list_value_at), using(thrift_value::proofs::Trees::tree_equations))]
fn list_value_at(alloc: Global, levels: u32, text: &[u8]) -> Result<(Value, &[u8]), TextStop>
    ensures { Gives (λ r. (tree_of r.0, r.1.now)) result (list_value_at most_rounds (value_text_at most_rounds levels) text.now) }
{
    let (tag, inside) = head_at(b"list<", text)?;
    let (items, rest) = items_at(alloc, levels, false, tag, inside)?;
    Ok((Value::List(tag, Items::new(items)), rest))
}

/// A key with its value.
fn paired<'a>(
    key: Value,
    value: Result<(Value, &'a [u8]), TextStop>,
) -> Result<((Value, Value), &'a [u8]), TextStop>
    ensures { MatchResult value.entry (λ v. result ≡ Ok ((key, v.0), v.1)) (λ stop. result ≡ Err stop) }
{
    match value {
        Ok((value, rest)) => Ok(((key, value), rest)),
        Err(stop) => Err(stop),
    }
}

/// A pair behind others, its key and its value, and what stands behind it.
#[cycle(reading)]
#[tactic(auto, unfolding(crate::specs::Reading::pair_text_at))]
fn pair_row<'a>(
    alloc: Global,
    levels: u32,
    key: Tag,
    tag: Tag,
    before: &[(Value, Value)],
    text: &'a [u8],
) -> Result<((Value, Value), bool, &'a [u8]), TextStop>
    ensures { Gives (λ r. (pair_tree r.0, r.1, r.2.now)) result
        (row_at (pair_text_at levels key tag (value_text_at most_rounds levels)) 125 (last_of (map pair_tree before.now)) text.now) }
{
    if !has_level(levels, tag) {
        return Err(TextStop::Left(text.len()));
    }
    let read = value_at(alloc, levels, Some(key), text);
    let (one, rest) = in_order(true, last_key(before), read)?;
    let value = assigned_at(alloc, levels, Some(tag), rest);
    let (entry, rest) = paired(one, value)?;
    joined(entry, next_at(b'}', rest))
}

/// Pairs with commas between them, one at least, up to the brace that closes them.
#[cycle(reading)]
fn pair_rows(
    alloc: Global,
    levels: u32,
    key: Tag,
    tag: Tag,
    text: &[u8],
) -> Result<(Vec<(Value, Value)>, &[u8]), TextStop>
    ensures { Gives (λ r. (map pair_tree r.0.items, r.1.now)) result
        (rows_at (pair_text_at levels key tag (value_text_at most_rounds levels)) 125 most_rounds None text.now) }
{
    let mut made = Vec::new(alloc);
    let mut rest = text;
    for step in 0..usize::MAX {
        let (entry, more, behind) = pair_row(alloc, levels, key, tag, made.as_slice(), rest)?;
        keep(&mut made, entry)?;
        if !more {
            return Ok((made, behind));
        }
        rest = behind;
    }
    Err(TextStop::NoMemory)
}

/// The pairs of a map, if any, up to the brace that closes them.
#[cycle(reading)]
fn pairs_at(
    alloc: Global,
    levels: u32,
    key: Tag,
    tag: Tag,
    text: &[u8],
) -> Result<(Vec<(Value, Value)>, &[u8]), TextStop>
    ensures { Gives (λ r. (map pair_tree r.0.items, r.1.now)) result
        (list_at (pair_text_at levels key tag (value_text_at most_rounds levels)) 125 most_rounds text.now) }
{
    if let Some(rest) = rest_behind(b'}', text) {
        return Ok((Vec::new(alloc), rest));
    }
    pair_rows(alloc, levels, key, tag, text)
}

/// A map.
#[cycle(reading)]
#[tactic(auto, unfolding(crate::specs::Reading::map_at), using(thrift_value::proofs::Trees::tree_equations))]
fn map_at(alloc: Global, levels: u32, text: &[u8]) -> Result<(Value, &[u8]), TextStop>
    ensures { Gives (λ r. (tree_of r.0, r.1.now)) result (map_at most_rounds levels (value_text_at most_rounds levels) text.now) }
{
    let (key, tag, inside) = map_head_at(text)?;
    let (pairs, rest) = pairs_at(alloc, levels, key, tag, inside)?;
    Ok((Value::Map(key, tag, Pairs::new(pairs)), rest))
}
