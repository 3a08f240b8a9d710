//! Marks of the items of a list: whether one before has the same name or id.

ghost use Rattle.std.specs.Prelude.{◌≡◌, ◌||◌, ◌++◌, ◌∷◌, [], ℕ, List, map, IfOk, OnOk};
ghost use Rattle.std.specs.Str.{bytes_eq};
ghost use Rattle.idl_names.specs.Before.{name_marks, id_marks};
ghost use Rattle.idl_names.specs.NameSets.{has_name, HasNameToo, has_id, HasIdToo};

use crate::adding::put;
use crate::filed::Named;
use indexmap::IndexSet;
use std::alloc::{AllocError, Global};

/// Names, borrowed from where they stand.
pub type NameSet<'a> = IndexSet<&'a [u8]>;

/// Ids.
pub(crate) type IdSet = IndexSet<i64>;

/// Adds a name, and tells whether it was there before.
pub fn was_seen<'a>(seen: &mut NameSet<'a>, name: &'a [u8]) -> Result<bool, AllocError>
    ensures before { IfOk result (λ was. was ≡ has_name seen.old name.now) }
    ensures after { OnOk result (HasNameToo name.now seen.old seen.new) }
{
    let new = seen.insert(name)?;
    Ok(!new)
}

/// Marks whether a name was there before, and adds it.
fn put_name_mark<'a>(
    marks: &mut Vec<bool>,
    seen: &mut NameSet<'a>,
    name: &'a [u8],
) -> Result<(), AllocError>
    ensures marked { OnOk result (marks.new.items ≡ marks.old.items ++ has_name seen.old name.now ∷ []) }
    ensures after { OnOk result (HasNameToo name.now seen.old seen.new) }
{
    let was = was_seen(seen, name)?;
    put(marks, was)?;
    Ok(())
}

/// Marks whether an id was there before, and adds it.
fn put_id_mark(marks: &mut Vec<bool>, seen: &mut IdSet, id: &i64) -> Result<(), AllocError>
    ensures marked { OnOk result (marks.new.items ≡ marks.old.items ++ has_id seen.old id.now ∷ []) }
    ensures after { OnOk result (HasIdToo id.now seen.old seen.new) }
{
    let new = seen.insert(*id)?;
    put(marks, !new)?;
    Ok(())
}

/// Whether each name is one of those before it.
pub(crate) fn repeated_names<D: Named>(alloc: Global, items: &[D]) -> Result<Vec<bool>, AllocError>
    ensures { IfOk result (λ marks. marks.items ≡ name_marks [] (map D.text items.now)) }
{
    let mut marks = Vec::new(alloc);
    let mut seen = IndexSet::new(alloc);
    for item in items {
        put_name_mark(&mut marks, &mut seen, item.name_bytes())?;
    }
    Ok(marks)
}

/// Whether each id is one of those before it.
pub(crate) fn repeated_ids(alloc: Global, ids: &[i64]) -> Result<Vec<bool>, AllocError>
    ensures { IfOk result (λ marks. marks.items ≡ id_marks [] ids.now) }
{
    let mut marks = Vec::new(alloc);
    let mut seen = IndexSet::new(alloc);
    for id in ids {
        put_id_mark(&mut marks, &mut seen, id)?;
    }
    Ok(marks)
}
