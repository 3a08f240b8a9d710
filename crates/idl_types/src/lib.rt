//! The types of a program of IDL files, with typedefs resolved; how its typedefs and services lead to one another, and which names services inherit.
//!
//! ```
//! let rows = typedef_rows(alloc, &names, definitions.typedefs.as_slice())?;
//! let looped = first_on_cycle(alloc, rows.as_slice())?;          // the number of the first typedef that leads to itself, or none
//! let parents = service_parents(alloc, &names, services)?;
//! let inherited = inherited_names(alloc, parents.as_slice(), services)?;
//! let aliases = alias_types(alloc, &names, definitions.typedefs.as_slice())?;
//! let tables = TypeTables { names: &names, aliases: aliases.as_slice() };
//! let mut room = MOST_TYPES;
//! let kind = type_meant(alloc, &tables, 0, &tree, &mut room)?;           // enums and structs by number
//! ```
//!
//! Types are for programs in which a check finds no fault: where a name stands for nothing or a typedef leads to itself, the answer is want
//! of memory. So it is for a type of more than 1,000 containers in one another, and past 4,000,000 types, which short typedefs can
//! make: no program makes a walk deep or a copy large. That is all that contracts leave free.
//!
//! Typedefs are made in an order that a search finds and nothing vouches for: where one isn't made yet, who names it misses it.
//! Rows are made in time that grows with the texts. Names that are inherited are kept in a set a service that has functions of its
//! own, its parent's names copied: past 4,000,000 copied names the answer is want of memory, as it is where parents lead round.
//! Definitions of a kind come by number along a program's spots ([`laws`]), so the first spot on a cycle has the least number.
//!
//! Not here: the checks, and the schema.
#![tactic(auto)]

mod aliases;
mod copies;
mod exceptions;
mod inherited;
pub mod laws;
mod meaning;
mod offer_order;
mod offers;
mod order;
mod rows;

pub use aliases::alias_types;
pub use copies::{MOST_TYPES, copy_type};
pub use exceptions::means_exception;
pub use inherited::{InheritedNames, inherited_names};
pub use meaning::{TypeTables, type_meant};
pub use rows::{parent_rows, service_parents, typedef_rows};
