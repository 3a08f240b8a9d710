//! What a literal of a struct is made of: one row by rising id of the fields that are owed and of those that are given.

ghost use Rattle.std.specs.Prelude.{◌≡◌, ◌++◌, ◌<ℤ◌, ℕ, ℤ, List, Option, map, AllPairs, IfOk, OnOk};
ghost use Rattle.schema.specs.PlainSchema.{PlainField};
ghost use Rattle.check_model.specs.Evaluation.{fields_worth};
ghost use Rattle.idl_const.specs.FieldEntries.{entry_in, given_entry, given_in_memory, entries_worth, AreGivenFor};
ghost use Rattle.idl_const.specs.FieldRows.{owed_entries, owed_in};

use crate::ground::FieldEntry;
use crate::keeping::entry_id;
use crate::rows::{Ranked, tidied};
use schema::FieldDesc;
use std::alloc::{AllocError, Global};
use std::cmp::Ordering;
use std::collections::VecDeque;
use thrift_value::Value;

/// A field of a struct that has a default, by its number among the given values, or has to be given.
#[derive(Drop)]
pub struct OwedField<'a> {
    /// The field.
    pub field: &'a FieldDesc,
    /// The number of its default.
    pub default: Option<u32>,
}

impl<'a> Ranked for FieldEntry<'a> {
    ghost use Rattle.std.specs.Ordering.{int_cmp};
    ghost use Rattle.idl_const.specs.FieldEntries.{entry_in, entry_id};

    ghost ranks = { λ x y. int_cmp (entry_id (entry_in x)) (entry_id (entry_in y)) };

    fn rank(&self, other: &Self) -> Ordering {
        let id = entry_id(self);
        id.cmp(&entry_id(other))
    }
}

/// Owed fields at the end of a row.
fn put_owed<'a>(
    row: &mut VecDeque<FieldEntry<'a>>,
    owed: &[OwedField<'a>],
) -> Result<(), AllocError>
    ensures { OnOk result (map entry_in row.new.items ≡ map entry_in row.old.items ++ map owed_in owed.now) }
{
    for one in owed {
        row.push_back(FieldEntry::Owed(one.field, one.default))?;
    }
    Ok(())
}

/// Given values at the end of a row.
fn put_given<'a>(
    row: &mut VecDeque<FieldEntry<'a>>,
    mut given: VecDeque<(i16, Value)>,
) -> Result<(), AllocError>
    ensures { OnOk result (map entry_in row.new.items ≡ map entry_in row.old.items ++ map given_entry (map given_in_memory given.items)) }
{
    while let Some((id, value)) = given.pop_front() {
        row.push_back(FieldEntry::Given(id, value))?;
    }
    Ok(())
}

/// What the fields of a struct are made of where these are owed, by rising id, and these values are given.
pub fn field_row<'a>(
    alloc: Global,
    owed: &[OwedField<'a>],
    given: Vec<(i16, Value)>,
) -> Result<VecDeque<FieldEntry<'a>>, AllocError>
    ensures { IfOk result (λ row. (default : ℤ → Option ℕ) (fields : List PlainField) → AllPairs (λ (f g : PlainField). f.id <ℤ g.id) fields
        → map owed_in owed.now ≡ owed_entries default fields → AreGivenFor fields (map given_in_memory given.items)
        → (named : _) (at : _) (levels count : _) → fields_worth named default (map given_in_memory given.items) at levels count fields
        ≡ entries_worth named at levels count (map entry_in row.items)) }
{
    let mut row = VecDeque::new(alloc);
    put_owed(&mut row, owed)?;
    put_given(&mut row, VecDeque::from(given))?;
    tidied(alloc, row)
}
