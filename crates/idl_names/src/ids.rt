//! The ids of fields, and the numbers of the values of enums.

ghost use Rattle.std.specs.Prelude.{◌≡◌, ◌+ℤ◌, ◌-ℤ◌, ℕ, ℤ, suc, pos, neg_ℤ, map, IfOk};
ghost use Rattle.idl_include.specs.DeclaredIn.{field_in, enum_value_in};
ghost use Rattle.idl_include.specs.EnumNumbers.{enum_numbers, number_or};
ghost use Rattle.idl_names.specs.EnumRange.{has_32_bits, fit_marks, IsNextAs};
ghost use Rattle.idl_include.specs.FieldIds.{field_ids, id_behind, one_more_unnumbered};

use crate::adding::put;
use idl_parser::{EnumValue, Field};
use std::alloc::{AllocError, Global};

/// The ids of the fields of a list: those written, or else -1, -2 and so on.
pub fn field_ids(alloc: Global, fields: &[Field]) -> Result<Vec<i64>, AllocError>
    ensures { IfOk result (λ ids. ids.items ≡ field_ids (map field_in fields.now)) }
{
    let mut ids = Vec::new(alloc);
    let mut next = -1i64;
    for field in fields {
        let id = id_or(next, field);
        let behind = next_behind(next, field)?;
        put(&mut ids, id)?;
        next = behind;
    }
    Ok(ids)
}

/// The id of a field, where `next` is that of one without a written number.
#[tactic(auto, unfolding(idl_include::specs::DeclaredIn::field_in))]
fn id_or(next: i64, field: &Field) -> i64
    ensures { (unnumbered : ℕ) → next ≡ neg_ℤ (pos (suc unnumbered)) → result ≡ id_behind unnumbered (field_in field.now).id }
{
    match &field.id {
        Some(id) => id.value,
        None => next,
    }
}

/// The id of a field without a written number behind this one.
#[tactic(auto, unfolding(idl_include::specs::DeclaredIn::field_in))]
fn next_behind(next: i64, field: &Field) -> Result<i64, AllocError>
    ensures { IfOk result (λ behind. (unnumbered : ℕ) → next ≡ neg_ℤ (pos (suc unnumbered))
        → behind ≡ neg_ℤ (pos (suc (one_more_unnumbered unnumbered (field_in field.now).id)))) }
{
    match &field.id {
        Some(_) => Ok(next),
        None => one_less(next),
    }
}

/// The number below.
fn one_less(number: i64) -> Result<i64, AllocError>
    ensures { IfOk result (λ less. less ≡ number -ℤ pos 1) }
{
    number.checked_sub(1).ok_or(AllocError)
}

/// The number above.
fn one_more(number: i64) -> Result<i64, AllocError>
    ensures { IfOk result (λ more. more ≡ number +ℤ pos 1) }
{
    number.checked_add(1).ok_or(AllocError)
}

/// The numbers of the values of an enum; want of memory where the number behind one has more than 64 bits.
#[tactic(auto, unfolding(idl_include::specs::EnumNumbers::enum_numbers))]
pub fn enum_numbers(alloc: Global, values: &[EnumValue]) -> Result<Vec<i64>, AllocError>
    ensures { IfOk result (λ numbers. numbers.items ≡ enum_numbers (map enum_value_in values.now)) }
{
    let mut numbers = Vec::new(alloc);
    let mut next = 0i64;
    for value in values {
        let number = number_or(next, value);
        put(&mut numbers, number)?;
        next = one_more(number)?;
    }
    Ok(numbers)
}

/// The number of a value, where `next` is that of one without a number.
fn number_or(next: i64, value: &EnumValue) -> i64
    ensures { result ≡ number_or next (enum_value_in value.now).number }
{
    match &value.number {
        Some(number) => number.value,
        None => next,
    }
}

/// Whether the number of each value of an enum has 32 bits.
pub(crate) fn enum_fits(alloc: Global, values: &[EnumValue]) -> Result<Vec<bool>, AllocError>
    ensures { IfOk result (λ marks. marks.items ≡ fit_marks (pos 0) (map enum_value_in values.now)) }
{
    let mut marks = Vec::new(alloc);
    let mut next = 0i64;
    for value in values {
        let number = number_or(next, value);
        put(&mut marks, has_32_bits(number))?;
        next = above(number);
    }
    Ok(marks)
}

/// Whether a number has 32 bits.
fn has_32_bits(number: i64) -> bool
    ensures { result ≡ has_32_bits number }
{
    number >= -2147483648 && number <= 2147483647
}

/// The number above, but for one that is past 32 bits already.
fn above(number: i64) -> i64
    ensures { (next : ℤ) → IsNextAs number next → IsNextAs result (next +ℤ pos 1) }
{
    if number <= 2147483647 {
        number + 1
    } else {
        number
    }
}
