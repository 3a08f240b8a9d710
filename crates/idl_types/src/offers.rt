//! Sets of names: of a service's functions, and of those that it inherits, one service after another.

ghost use Rattle.std.specs.Prelude.{◌≡◌, ◌||◌, ◌++◌, ◌∷◌, [], ℕ, List, slice_index_or, None, length, IfOk, OnOk, MatchResult, Result};
ghost use Rattle.std.specs.List.{list_any};
ghost use Rattle.std.specs.Str.{bytes_eq};
ghost use denote.Ref.{Bor};
ghost use Rattle.idl_names.specs.NameSets.{has_name};
ghost use Rattle.idl_types.specs.Inherited.{is_function, functions_at, is_in_set, is_in_base, IsBase, IsMade, HasBoth, AddsSet, AreOffered, KeepsOffered};

use idl_names::{InFile, NameSet, was_seen};
use idl_parser::{Function, Service};
use indexmap::IndexSet;
use std::alloc::{AllocError, Global};

// How many names are copied at most.
const MOST_COPIED: usize = 4_000_000;

/// What is offered so far.
#[derive(Drop)]
pub(crate) struct Offered<'a> {
    /// Sets of names.
    pub(crate) sets: Vec<NameSet<'a>>,
    /// The set of each service's functions and of those that it inherits, by the service's number, once it is made.
    pub(crate) made: Vec<Option<u32>>,
    /// How many names were copied.
    pub(crate) copied: usize,
}

/// Nothing is offered yet, of so many services.
pub(crate) fn nothing_offered<'a>(alloc: Global, count: usize) -> Result<Offered<'a>, AllocError>
    ensures { IfOk result (λ offered. (service : ℕ) → slice_index_or offered.made.items service None ≡ None) }
{
    let mut made = Vec::new(alloc);
    for _ in 0..count {
        made.push(None)?;
    }
    Ok(Offered {
        sets: Vec::new(alloc),
        made,
        copied: 0,
    })
}

/// What stands at a place, if something does.
pub(crate) fn entry_at(entries: &[Option<u32>], place: u32) -> Option<u32>
    ensures { result ≡ slice_index_or entries.now place None }
{
    match entries.get(place as usize) {
        Some(entry) => *entry,
        None => None,
    }
}

/// Whether a name is in the set of some number.
pub(crate) fn is_in_set(sets: &[NameSet<'_>], which: u32, name: &[u8]) -> bool
    ensures { result ≡ is_in_set sets.now which name.now }
{
    match sets.get(which as usize) {
        Some(set) => set_has(set, name),
        None => false,
    }
}

/// Whether a name is in a set.
fn set_has(set: &NameSet<'_>, name: &[u8]) -> bool
    ensures { result ≡ has_name set.now name.now }
{
    set.contains(name)
}

/// The set of a parent, if there is one. It has to be made.
pub(crate) fn base_of(made: &[Option<u32>], parent: Option<u32>) -> Result<Option<u32>, AllocError>
    ensures { IfOk result (λ base. IsBase made.now parent base) }
{
    let Some(parent) = parent else {
        return Ok(None);
    };
    match entry_at(made, parent) {
        Some(which) => Ok(Some(which)),
        None => Err(AllocError),
    }
}

/// The functions of the service of some number.
fn functions_at<'a>(services: &[InFile<'a, Service>], service: u32) -> &'a [Function]
    ensures { result.now ≡ functions_at services.now service }
{
    match services.get(service as usize) {
        Some(item) => item.item.functions.as_slice(),
        None => &[],
    }
}

/// Offers the functions of one service more, and those that it inherits of its parent, whose set has to be made.
pub(crate) fn offer<'a>(
    alloc: Global,
    offered: &mut Offered<'a>,
    parents: &[Option<u32>],
    services: &[InFile<'a, Service>],
    service: u32,
) -> Result<(), AllocError>
    ensures { OnOk result (KeepsOffered parents.now services.now offered.old offered.new) }
{
    let base = base_of(offered.made.as_slice(), entry_at(parents, service))?;
    let functions = functions_at(services, service);
    if functions.is_empty() {
        if let Some(which) = base {
            return put_made(&mut offered.made, service, which);
        }
    }
    offer_new(alloc, offered, service, base, functions)
}

/// The set of a service is that of some number.
fn put_made(made: &mut Vec<Option<u32>>, service: u32, which: u32) -> Result<(), AllocError>
    ensures { OnOk result (IsMade service which made.old.items made.new.items) }
{
    let place = service as usize;
    if place < made.len() {
        made[place] = Some(which);
        Ok(())
    } else {
        Err(AllocError)
    }
}

/// Adds the set of a service with these functions, whose parent has the set `base`.
fn offer_new<'a>(
    alloc: Global,
    offered: &mut Offered<'a>,
    service: u32,
    base: Option<u32>,
    functions: &'a [Function],
) -> Result<(), AllocError>
    ensures { OnOk result (AddsSet service base functions.now offered.old offered.new) }
{
    let Ok(which) = u32::try_from(offered.sets.len()) else {
        return Err(AllocError);
    };
    let more = names_in(offered.sets.as_slice(), base);
    offered.copied = within_most(offered.copied, more)?;
    let set = with_functions(alloc, offered.sets.as_slice(), base, functions)?;
    put_set(&mut offered.sets, set)?;
    put_made(&mut offered.made, service, which)
}

/// One set more.
fn put_set<'a>(sets: &mut Vec<NameSet<'a>>, set: NameSet<'a>) -> Result<(), AllocError>
    ensures { OnOk result (sets.new.items ≡ sets.old.items ++ set.entry ∷ []) }
{
    sets.push(set)?;
    Ok(())
}

/// How many names a set has, if there is one.
fn names_in(sets: &[NameSet<'_>], base: Option<u32>) -> usize {
    match base {
        Some(which) => match sets.get(which as usize) {
            Some(set) => set.len(),
            None => 0,
        },
        None => 0,
    }
}

/// How many names are copied with so many more, where these aren't too many.
fn within_most(copied: usize, more: usize) -> Result<usize, AllocError> {
    match copied.checked_add(more) {
        Some(sum) if sum <= MOST_COPIED => Ok(sum),
        _ => Err(AllocError),
    }
}

/// The names of a set, if there is one, and of functions.
fn with_functions<'a>(
    alloc: Global,
    sets: &[NameSet<'a>],
    base: Option<u32>,
    functions: &'a [Function],
) -> Result<NameSet<'a>, AllocError>
    ensures { IfOk result (HasBoth sets.now base functions.now) }
{
    let mut set = IndexSet::new(alloc);
    let done = put_both(&mut set, sets, base, functions);
    kept(set, done)
}

/// What was filled, where that came to its end.
pub(crate) fn kept<T: Drop>(item: T, done: Result<(), AllocError>) -> Result<T, AllocError>
    ensures { MatchResult done (λ _. result ≡ Result.Ok item) (λ error. result ≡ Result.Err error) }
{
    match done {
        Ok(()) => Ok(item),
        Err(error) => Err(error),
    }
}

/// The names of a set more, if there is one, and of functions.
fn put_both<'a>(
    set: &mut NameSet<'a>,
    sets: &[NameSet<'a>],
    base: Option<u32>,
    functions: &'a [Function],
) -> Result<(), AllocError>
    ensures { OnOk result ((name : List ℕ) → has_name set.new name ≡ ((has_name set.old name || is_in_base sets.now base name) || is_function functions.now name)) }
{
    put_base(set, sets, base)?;
    put_functions(set, functions)
}

/// The names of a set more, if there is one.
fn put_base<'a>(
    set: &mut NameSet<'a>,
    sets: &[NameSet<'a>],
    base: Option<u32>,
) -> Result<(), AllocError>
    ensures { OnOk result ((name : List ℕ) → has_name set.new name ≡ (has_name set.old name || is_in_base sets.now base name)) }
{
    let Some(which) = base else {
        return Ok(());
    };
    match sets.get(which as usize) {
        Some(other) => put_names(set, other),
        None => Ok(()),
    }
}

/// The names of another set more.
fn put_names<'a>(set: &mut NameSet<'a>, names: &NameSet<'a>) -> Result<(), AllocError>
    ensures { OnOk result ((name : List ℕ) → has_name set.new name ≡ (has_name set.old name || has_name names.now name)) }
{
    for name in names.as_slice() {
        was_seen(set, *name)?;
    }
    Ok(())
}

/// The names of functions more.
fn put_functions<'a>(set: &mut NameSet<'a>, functions: &'a [Function]) -> Result<(), AllocError>
    ensures { OnOk result ((name : List ℕ) → has_name set.new name ≡ (has_name set.old name || is_function functions.now name)) }
{
    for function in functions {
        was_seen(set, function.name.text.as_slice())?;
    }
    Ok(())
}
