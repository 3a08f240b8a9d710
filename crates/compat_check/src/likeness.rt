//! Which types are like each other, and the structs at like places of them.
ghost use Rattle.std.specs.Prelude.{◌≡◌, ◌++◌, ◌∷◌, [], OnOk, map};
ghost use Rattle.std.specs.Option.{option_copied, option_map};
ghost use Rattle.schema.specs.PlainKind.{kind_of};
ghost use Rattle.known_parts.specs.Parts.{tag_of_kind, are_same_tags};
ghost use Rattle.compat_model.specs.Likeness.{are_like, are_like_results, has_no_struct, result_places, struct_places};
ghost use Rattle.compat_model.specs.StructPairs.{pairs_at};
ghost use Rattle.compat_check.specs.Plain.{plain_pair};

use crate::pair::Pair;
use known_parts::{
    are_same_tags, list_of_kind, map_of_kind, set_of_kind, struct_of_kind, tag_of_kind,
};
use schema::TypeDesc;
use std::alloc::AllocError;

/// Whether no struct, union or exception stands in a type. It recurses once a level.
fn has_no_struct(kind: &TypeDesc) -> bool
    ensures { result ≡ has_no_struct (kind_of kind.now) }
{
    match kind {
        TypeDesc::Struct(_) => false,
        TypeDesc::Map(key, value) => has_no_struct(key) && has_no_struct(value),
        TypeDesc::Set(member) => has_no_struct(member),
        TypeDesc::List(element) => has_no_struct(element),
        TypeDesc::Bool
        | TypeDesc::I8
        | TypeDesc::I16
        | TypeDesc::I32
        | TypeDesc::I64
        | TypeDesc::Double
        | TypeDesc::Text
        | TypeDesc::Binary
        | TypeDesc::Uuid
        | TypeDesc::Enum(_) => true,
    }
}

/// Whether the tags of two types agree.
fn have_same_tags(kind: &TypeDesc, other: &TypeDesc) -> bool
    ensures { result ≡ are_same_tags (tag_of_kind (kind_of kind.now)) (tag_of_kind (kind_of other.now)) }
{
    are_same_tags(tag_of_kind(kind), tag_of_kind(other))
}

/// Whether values of one type may be read as another. It recurses once a level.
#[tactic(auto, using(crate::proofs::LikeParts::are_like_map, crate::proofs::LikeParts::are_like_set, crate::proofs::LikeParts::are_like_list))]
pub(crate) fn are_like(kind: &TypeDesc, other: &TypeDesc) -> bool
    ensures { result ≡ are_like (kind_of kind.now) (kind_of other.now) }
{
    match kind {
        TypeDesc::Map(key, value) => match map_of_kind(other) {
            Some((other_key, other_value)) => {
                has_no_struct(key)
                    && has_no_struct(other_key)
                    && are_like(key, other_key)
                    && are_like(value, other_value)
            }
            None => false,
        },
        TypeDesc::Set(member) => match set_of_kind(other) {
            Some(other) => has_no_struct(member) && has_no_struct(other) && are_like(member, other),
            None => false,
        },
        TypeDesc::List(element) => match list_of_kind(other) {
            Some(other) => are_like(element, other),
            None => false,
        },
        TypeDesc::Bool
        | TypeDesc::I8
        | TypeDesc::I16
        | TypeDesc::I32
        | TypeDesc::I64
        | TypeDesc::Double
        | TypeDesc::Text
        | TypeDesc::Binary
        | TypeDesc::Uuid
        | TypeDesc::Enum(_)
        | TypeDesc::Struct(_) => have_same_tags(kind, other),
    }
}

/// Whether two results, of which each may be none, are like each other.
pub fn are_like_results(kind: Option<&TypeDesc>, other: Option<&TypeDesc>) -> bool
    ensures { result ≡ are_like_results (option_map kind_of (option_copied kind.entry)) (option_map kind_of (option_copied other.entry)) }
{
    match kind {
        Some(kind) => match other {
            Some(other) => are_like(kind, other),
            None => false,
        },
        None => other.is_none(),
    }
}

/// Appends the pairs of structs at like places of two types, from the left. It recurses once a level.
#[tactic(auto, using(crate::proofs::LikeParts::places_struct, crate::proofs::LikeParts::places_map, crate::proofs::LikeParts::places_list))]
pub(crate) fn push_places(
    into: &mut Vec<Pair>,
    backward: bool,
    kind: &TypeDesc,
    other: &TypeDesc,
) -> Result<(), AllocError>
    ensures { OnOk result (map plain_pair into.new.items ≡ map plain_pair into.old.items ++ pairs_at backward (struct_places (kind_of kind.now) (kind_of other.now))) }
{
    match kind {
        TypeDesc::Struct(from) => match struct_of_kind(other) {
            Some(to) => push_pair(
                into,
                Pair {
                    backward,
                    from: *from,
                    to,
                },
            ),
            None => Ok(()),
        },
        TypeDesc::Map(_, value) => match map_of_kind(other) {
            Some((_, other)) => push_places(into, backward, value, other),
            None => Ok(()),
        },
        TypeDesc::List(element) => match list_of_kind(other) {
            Some(other) => push_places(into, backward, element, other),
            None => Ok(()),
        },
        TypeDesc::Bool
        | TypeDesc::I8
        | TypeDesc::I16
        | TypeDesc::I32
        | TypeDesc::I64
        | TypeDesc::Double
        | TypeDesc::Text
        | TypeDesc::Binary
        | TypeDesc::Uuid
        | TypeDesc::Enum(_)
        | TypeDesc::Set(_) => Ok(()),
    }
}

/// Appends a pair.
pub(crate) fn push_pair(into: &mut Vec<Pair>, pair: Pair) -> Result<(), AllocError>
    ensures { OnOk result (map plain_pair into.new.items ≡ map plain_pair into.old.items ++ plain_pair pair ∷ []) }
{
    into.push(pair)?;
    Ok(())
}

/// Appends the pairs of structs at like places of two results.
pub fn push_result_places(
    into: &mut Vec<Pair>,
    backward: bool,
    kind: Option<&TypeDesc>,
    other: Option<&TypeDesc>,
) -> Result<(), AllocError>
    ensures { OnOk result (map plain_pair into.new.items ≡ map plain_pair into.old.items
        ++ pairs_at backward (result_places (option_map kind_of (option_copied kind.entry)) (option_map kind_of (option_copied other.entry)))) }
{
    match kind {
        Some(kind) => match other {
            Some(other) => push_places(into, backward, kind, other),
            None => Ok(()),
        },
        None => Ok(()),
    }
}
