//! Where chains of mere names end, found once for all given values, in time that grows with their number.

ghost use Rattle.std.specs.Prelude.{◌≡◌, ◌⊎◌, ℕ, Some, None, length, map, slice_set, IsTrue, IfOk};
ghost use Rattle.idl_include.specs.SourcesOf.{program_in};
ghost use Rattle.idl_include.specs.Spots.{values_of};
ghost use Rattle.idl_names.specs.SpotsIn.{filed_value};
ghost use Rattle.idl_const.specs.declared.chains.ChainEnd.{ChainEnd};
ghost use Rattle.const_evaluator.specs.ChainTables.{end_at_link, linked_within, end_in, IsLinkOf, AreLinksFrom, AreSettled, TellsEnds};

use crate::ConstNames;
use idl_const::ChainEnd;
use idl_names::{ConstName, GivenTree};
use idl_parser::ConstTree;
use std::alloc::{AllocError, Global};

/// What a given value is at once.
#[derive(Clone, Copy)]
pub(crate) enum Link {
    /// The end of its chain.
    End(ChainEnd),
    /// A name of the given value of some number.
    Next(u32),
}

/// What the given value of some number is at once.
fn link_of(constants: &ConstNames<'_, '_>, which: u32, value: &GivenTree<'_>) -> Link
    ensures { IsLinkOf (program_in constants.now) which value.now result }
{
    let ConstTree::Name(name) = value.tree else {
        return Link::End(ChainEnd::Value(which));
    };
    match constants.const_named(value.file, name.text.as_slice()) {
        None => Link::End(ChainEnd::Unknown),
        Some(ConstName::Number(of, number)) => Link::End(ChainEnd::Number(of, number)),
        Some(ConstName::Value(next)) => Link::Next(next),
    }
}

/// The links of given values.
fn links(
    alloc: Global,
    constants: &ConstNames<'_, '_>,
    values: &[GivenTree<'_>],
) -> Result<Vec<Link>, AllocError>
    ensures { IfOk result (λ links. AreLinksFrom (program_in constants.now) 0 values.now links.items) }
{
    let mut links = Vec::new(alloc);
    for (number, value) in values.iter().enumerate() {
        let Ok(number) = u32::try_from(number) else {
            return Err(AllocError);
        };
        links.push(link_of(constants, number, value))?;
    }
    Ok(links)
}

/// Follows a chain from some link on over those that weren't met yet, and puts it into an order, its end first.
fn put_chain(
    alloc: Global,
    links: &[Link],
    met: &mut Vec<bool>,
    order: &mut Vec<u32>,
    start: u32,
) -> Result<(), AllocError> {
    let mut chain = Vec::new(alloc);
    follow(links, met, &mut chain, start)?;
    put_last_first(order, chain.as_slice())
}

/// Follows a chain from some link on over those that weren't met yet.
fn follow(
    links: &[Link],
    met: &mut Vec<bool>,
    chain: &mut Vec<u32>,
    start: u32,
) -> Result<(), AllocError> {
    let mut which = start;
    for _ in 0..links.len() {
        let place = which as usize;
        if place >= met.len() || met[place] {
            break;
        }
        met[place] = true;
        chain.push(which)?;
        match links.get(place) {
            Some(Link::Next(next)) => which = *next,
            Some(Link::End(_)) | None => break,
        }
    }
    Ok(())
}

/// Puts numbers behind others, the last one first.
fn put_last_first(order: &mut Vec<u32>, numbers: &[u32]) -> Result<(), AllocError> {
    for place in 0..numbers.len() {
        order.push(numbers[numbers.len() - 1 - place])?;
    }
    Ok(())
}

/// The numbers of links, each behind the one that it leads to, where chains end. Nothing vouches for this order: with another, ends are
/// missed, and who misses one answers want of memory.
fn order(alloc: Global, links: &[Link]) -> Result<Vec<u32>, AllocError> {
    let mut met = vec![in alloc; false; links.len()]?;
    let mut order = Vec::new(alloc);
    match put_chains(alloc, links, &mut met, &mut order) {
        Ok(()) => Ok(order),
        Err(fault) => Err(fault),
    }
}

/// Puts the chains from all links into an order.
fn put_chains(
    alloc: Global,
    links: &[Link],
    met: &mut Vec<bool>,
    order: &mut Vec<u32>,
) -> Result<(), AllocError> {
    for start in 0..links.len() {
        let Ok(start) = u32::try_from(start) else {
            return Err(AllocError);
        };
        put_chain(alloc, links, met, order, start)?;
    }
    Ok(())
}

/// What a table of ends tells of a number.
pub(crate) fn end_in(ends: &[Option<ChainEnd>], which: u32) -> Option<ChainEnd>
    ensures { result ≡ end_in ends.now which }
{
    ends.get(which as usize).copied().flatten()
}

/// Where the chain of the link of some number ends, by a table of ends.
fn end_at_link(links: &[Link], ends: &[Option<ChainEnd>], which: u32) -> Option<ChainEnd>
    ensures { result ≡ end_at_link links.now (end_in ends.now) which }
{
    match links.get(which as usize) {
        Some(Link::End(end)) => Some(*end),
        Some(Link::Next(next)) => end_in(ends, *next),
        None => None,
    }
}

/// Room for so many ends, none of which is known.
fn no_ends(alloc: Global, count: usize) -> Result<Vec<Option<ChainEnd>>, AllocError>
    ensures { IfOk result (λ ends. (which : ℕ) → end_in ends.items which ≡ None) }
{
    let mut ends = Vec::with_capacity(alloc, count)?;
    for _place in 0..count {
        ends.push(None)?;
    }
    Ok(ends)
}

/// An end at some number.
fn set_end(ends: &mut Vec<Option<ChainEnd>>, which: u32, end: Option<ChainEnd>)
    ensures { ends.new.items ≡ slice_set ends.old.items which end }
{
    let which = which as usize;
    if which < ends.len() {
        ends[which] = end;
    }
}

/// The end of one chain more.
fn put_end(ends: &mut Vec<Option<ChainEnd>>, links: &[Link], which: u32)
    ensures { (other : ℕ) (e : ChainEnd) → end_in ends.new.items other ≡ Some e
        → (end_in ends.old.items other ≡ Some e) ⊎ (end_at_link links.now (end_in ends.old.items) other ≡ Some e) }
{
    let end = end_at_link(links, ends.as_slice(), which);
    set_end(ends, which, end);
}

/// The ends of chains, found one after another in some order.
fn ends_along(
    alloc: Global,
    links: &[Link],
    order: &[u32],
) -> Result<Vec<Option<ChainEnd>>, AllocError>
    ensures { IfOk result (λ ends. (which : ℕ) (e : ChainEnd) → end_in ends.items which ≡ Some e → linked_within links.now (length order.now) which ≡ Some e) }
{
    let mut ends = no_ends(alloc, links.len())?;
    for which in order {
        put_end(&mut ends, links, *which);
    }
    Ok(ends)
}

/// Whether the end of a chain isn't missed.
fn is_settled(links: &[Link], ends: &[Option<ChainEnd>], which: u32) -> bool
    ensures { IsTrue result → end_in ends.now which ≡ None → end_at_link links.now (end_in ends.now) which ≡ None }
{
    match end_in(ends, which) {
        Some(_) => true,
        None => end_at_link(links, ends, which).is_none(),
    }
}

/// Whether the end of no chain is missed.
fn are_settled(links: &[Link], ends: &[Option<ChainEnd>]) -> bool
    ensures { IsTrue result → AreSettled links.now ends.now }
{
    for which in 0..links.len() {
        let Ok(which) = u32::try_from(which) else {
            return false;
        };
        if !is_settled(links, ends, which) {
            return false;
        }
    }
    true
}

/// Where chains end, by their links.
fn linked_ends(alloc: Global, links: &[Link]) -> Result<Vec<Option<ChainEnd>>, AllocError>
    ensures { IfOk result (λ ends. (which : ℕ) → end_in ends.items which ≡ linked_within links.now (length links.now) which) }
{
    let order = order(alloc, links)?;
    let ends = ends_along(alloc, links, order.as_slice())?;
    if order.len() > links.len() {
        return Err(AllocError);
    }
    if !are_settled(links, ends.as_slice()) {
        return Err(AllocError);
    }
    Ok(ends)
}

/// Where the chains of given values end.
pub(crate) fn chain_ends(
    alloc: Global,
    constants: &ConstNames<'_, '_>,
    values: &[GivenTree<'_>],
) -> Result<Vec<Option<ChainEnd>>, AllocError>
    requires { map filed_value values.now ≡ values_of (program_in constants.now) }
    ensures { IfOk result (λ ends. TellsEnds (program_in constants.now) ends.items) }
{
    let links = links(alloc, constants, values)?;
    linked_ends(alloc, links.as_slice())
}
