//! An order of typedefs in which each stands behind those that its type names. Nothing is promised of it: who makes types by it sees
//! whether those that a type names are made.

ghost use Rattle.std.specs.Prelude.{◌≡◌};
ghost use Rattle.idl_include.specs.Numbering.{typedefs_of};
ghost use Rattle.idl_include.specs.SourcesOf.{program_in};
ghost use Rattle.idl_names.specs.FiledIn.{filed_typedefs};

use crate::rows::typedef_rows;
use idl_names::{InFile, NameTables};
use idl_parser::Typedef;
use std::alloc::{AllocError, Global};

/// The search for an order, without recursion.
#[derive(Drop)]
struct Search {
    // Whether a typedef was met.
    met: Vec<bool>,
    // The typedefs that are being looked at, each with the place of the next one in its row.
    open: Vec<(u32, usize)>,
    // Those that were looked at, in order.
    order: Vec<u32>,
}

/// The number at a place in the row of a typedef.
fn at_place(rows: &[Vec<u32>], typedef: u32, place: usize) -> Option<u32> {
    match rows.get(typedef as usize) {
        Some(row) => row.as_slice().get(place).copied(),
        None => None,
    }
}

impl Search {
    /// A typedef is looked at, unless it was met.
    fn meet(&mut self, typedef: u32) -> Result<(), AllocError> {
        if let Some(met) = self.met.get_mut(typedef as usize) {
            if !*met {
                *met = true;
                self.open.push((typedef, 0))?;
            }
        }
        Ok(())
    }

    /// Goes one step; false where no typedef is being looked at.
    fn step(&mut self, rows: &[Vec<u32>]) -> Result<bool, AllocError> {
        let Some((typedef, place)) = self.open.pop() else {
            return Ok(false);
        };
        match at_place(rows, typedef, place) {
            Some(named) => {
                self.open.push((typedef, place.wrapping_add(1)))?;
                self.meet(named)?;
            }
            None => self.order.push(typedef)?,
        }
        Ok(true)
    }

    /// Steps until no typedef is being looked at.
    fn finish(&mut self, rows: &[Vec<u32>]) -> Result<(), AllocError> {
        for _ in 0..u64::MAX {
            if !self.step(rows)? {
                break;
            }
        }
        Ok(())
    }

    /// Looks at each typedef in turn, and first at those that its type names.
    fn meet_all(&mut self, rows: &[Vec<u32>]) -> Result<(), AllocError> {
        for typedef in 0..rows.len() {
            let Ok(typedef) = u32::try_from(typedef) else {
                return Err(AllocError);
            };
            self.meet(typedef)?;
            self.finish(rows)?;
        }
        Ok(())
    }
}

/// A search that has met none of so many typedefs.
fn nothing_met(alloc: Global, count: usize) -> Result<Search, AllocError> {
    let met = vec![in alloc; false; count]?;
    Ok(Search {
        met,
        open: Vec::new(alloc),
        order: Vec::new(alloc),
    })
}

/// The order of a search, where it came to its end.
fn order_of(search: Search, done: Result<(), AllocError>) -> Result<Vec<u32>, AllocError> {
    match done {
        Ok(()) => Ok(search.order),
        Err(error) => Err(error),
    }
}

/// An order by the typedefs that each one names.
fn order_by(alloc: Global, rows: &[Vec<u32>]) -> Result<Vec<u32>, AllocError> {
    let mut search = nothing_met(alloc, rows.len())?;
    let done = search.meet_all(rows);
    order_of(search, done)
}

/// The typedefs in an order in which each stands behind those that its type names, where no typedef leads to itself.
pub(crate) fn building_order(
    alloc: Global,
    names: &NameTables<'_>,
    typedefs: &[InFile<'_, Typedef>],
) -> Result<Vec<u32>, AllocError>
    requires { filed_typedefs typedefs.now ≡ typedefs_of (program_in names.now) }
{
    let rows = typedef_rows(alloc, names, typedefs)?;
    order_by(alloc, rows.as_slice())
}
