//! The schema of a program of IDL files but for its defaults and constants, part by part, and which of its structs have a finite value.
//!
//! ```
//! let schema = partial_schema(alloc, files, &definitions, &tables)?;
//! let finite = finite_structs(alloc, &schema)?;                          // by number
//! ```
//!
//! It is for programs in which a check finds no fault: where a list has an id twice, or a number doesn't fit, the answer is want of
//! memory, as it is where a type can't be made and past 4,000,000 types. That is all that contracts leave free.
//!
//! Ranks, which show that a struct has a value, come from a search that nothing vouches for, and are checked.
//!
//! Not here: the checks, defaults, and constants.
#![tactic(auto)]

mod enums;
mod fields;
mod files;
mod finite;
mod partial;
mod ranks;
mod services;
mod sorted;
mod structs;
mod typedefs;

pub use finite::finite_structs;
pub use partial::partial_schema;
pub use services::thrown;
pub use sorted::{FieldById, fields_sorted};
