//! Which raw field is taken for which declared one.
ghost use Rattle.std.specs.Prelude.{◌≡◌, ◌<◌, ◌<ℤ◌, ◌++◌, ◌∷◌, [], List, length, map, pos, Some, AllPairs, IfOk, IfSome, OnOk, option_to_list};
ghost use Rattle.thrift_value.specs.TreeOf.{tree_of, field_tree, field_trees};
ghost use Rattle.schema.specs.PlainSchema.{PlainField};
ghost use Rattle.schema.specs.SchemaOf.{plain_field};
ghost use Rattle.struct_skew.specs.Fits.{fits_kind};
ghost use Rattle.struct_skew.specs.Offers.{is_sent_for};
ghost use Rattle.struct_skew.specs.Plan.{AllAt, place_cmp, unsent_choice, is_choice_at, IsPlaceOfId, IsThinned, KeepsFollowing, Plans};
ghost use Rattle.struct_skew.specs.TakenOut.{AreApart, AreApartBelow};

use crate::kinds::fits_kind;
use crate::order::{Keyed, in_order};
use schema::FieldDesc;
use std::alloc::{AllocError, Global};
use std::cmp::Ordering;
use std::mem;
use thrift_value::Value;

/// A declared field and the raw field that is sent for it, by their places.
#[derive(Clone, Copy)]
pub struct Choice {
    pub(crate) place: usize,
    pub(crate) sent: Option<usize>,
}

impl Keyed for Choice {
    ghost use Rattle.std.proofs.lemmas.Cmp.{on_total, nat_cmp_total};
    ghost use Rattle.struct_skew.specs.Plan.{place_cmp};

    ghost key_order = { place_cmp };

    fn compare_keys(&self, other: &Self) -> Ordering {
        self.place.cmp(&other.place)
    }

    ghost total = { on_total (λ c. c.place) nat_cmp_total };
}

/// The place of the field with an id.
fn place_of(fields: &[FieldDesc], id: &i16) -> Option<usize>
    requires { AllPairs (λ (f g : PlainField). f.id <ℤ g.id) (map plain_field fields.now) }
    ensures { IsPlaceOfId id.now (map plain_field fields.now) result }
{
    match fields.binary_search_by_key(id, |field| field.id) {
        Ok(place) => Some(place),
        Err(_) => None,
    }
}

/// The choice that comes of one raw field: of the declared field that has its id, where the value fits.
fn choice_of(declared: &[FieldDesc], id: &i16, value: &Value, index: usize) -> Option<Choice>
    requires { AllPairs (λ (f g : PlainField). f.id <ℤ g.id) (map plain_field declared.now) }
    ensures choice { AllAt (λ q f. is_sent_for f id.now (tree_of value.now) ≡ is_choice_at q result) 0 (map plain_field declared.now) }
    ensures sent { IfSome result (λ c. c.sent ≡ Some index) }
{
    let Some(place) = place_of(declared, id) else {
        return None;
    };
    if !fits_kind(value, &declared[place].kind) {
        return None;
    }
    Some(Choice {
        place,
        sent: Some(index),
    })
}

/// Appends a choice of each of these places, for which nothing is sent.
fn put_unsent(into: &mut Vec<Choice>, places: &[usize]) -> Result<(), AllocError>
    ensures { OnOk result (into.new.items ≡ into.old.items ++ map unsent_choice places.now) }
{
    for place in places {
        into.push(Choice {
            place: *place,
            sent: None,
        })?;
    }
    Ok(())
}

/// Appends a choice, if there is one.
fn put_choice(into: &mut Vec<Choice>, choice: Option<Choice>) -> Result<(), AllocError>
    ensures { OnOk result (into.new.items ≡ into.old.items ++ option_to_list choice) }
{
    match choice {
        Some(choice) => {
            into.push(choice)?;
            Ok(())
        }
        None => Ok(()),
    }
}

/// How many choices there are at least before they are put in order while more are made.
const FEW_CHOICES: usize = 1024;

/// Puts choices in order, of each declared field the last, where there are more than so many: so a field that is sent many times
/// takes no room for each time.
fn thin_out(alloc: Global, choices: &mut Vec<Choice>, most: usize) -> Result<(), AllocError>
    ensures { OnOk result (IsThinned choices.old.items choices.new.items) }
{
    if choices.as_slice().len() <= most {
        return Ok(());
    }
    let all = mem::replace(choices, Vec::new(alloc));
    *choices = in_order(alloc, all)?;
    Ok(())
}

/// Appends the choices that come of the raw fields, of which those that come later count.
fn put_sent(
    alloc: Global,
    into: &mut Vec<Choice>,
    declared: &[FieldDesc],
    sent: &[(i16, Value)],
) -> Result<(), AllocError>
    requires { AllPairs (λ (f g : PlainField). f.id <ℤ g.id) (map plain_field declared.now) }
    ensures counts { OnOk result (KeepsFollowing (map plain_field declared.now) (field_trees (map field_tree sent.now)) into.old.items into.new.items) }
    ensures apart { OnOk result (AreApartBelow 0 into.old.items → AreApart into.new.items) }
{
    let most = declared.len().saturating_mul(2).max(FEW_CHOICES);
    for index in 0..sent.len() {
        let (id, value) = &sent[index];
        put_choice(into, choice_of(declared, id, value, index))?;
        thin_out(alloc, into, most)?;
    }
    Ok(())
}

/// The plan for a struct: what is needed of it, and what is sent. No raw field is sent for two declared ones.
pub(crate) fn plan_of(
    alloc: Global,
    required: &[usize],
    defaulted: &[usize],
    declared: &[FieldDesc],
    sent: &[(i16, Value)],
) -> Result<Vec<Choice>, AllocError>
    requires { AllPairs (λ (f g : PlainField). f.id <ℤ g.id) (map plain_field declared.now) }
    ensures counts { IfOk result (λ plan. Plans required.now defaulted.now (map plain_field declared.now) (field_trees (map field_tree sent.now)) plan.items) }
    ensures apart { IfOk result (λ plan. AreApart plan.items) }
{
    let mut choices = Vec::new(alloc);
    put_unsent(&mut choices, required)?;
    put_unsent(&mut choices, defaulted)?;
    put_sent(alloc, &mut choices, declared, sent)?;
    in_order(alloc, choices)
}
