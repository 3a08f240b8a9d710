//! The names of a program of IDL files, looked up; its definitions by number; and its spots, the things that a check looks at.
//!
//! ```
//! let files = sources.files();
//! let definitions = all_definitions(alloc, files)?;             // typedefs, enums, .. each in a list, by number
//! let names = name_tables(alloc, files, &definitions)?;
//! let work = names.type_named(0, b"shared.Work");               // an enum, a struct or a typedef by its number, or none
//! let spots = program_spots(alloc, files)?;                     // in reading order
//! let values = values_at(alloc, spots.as_slice())?;             // constants and defaults
//! ```
//!
//! Tables are made once, in time that grows with the texts; a look-up takes no memory. A spot tells what is known of it by those
//! before it in its list (whether its name or its id is there, its id, whether its number fits), so that a pass over
//! spots needs no list of its own. Want of memory is the one answer that the contracts leave free.
//!
//! Files that were loaded are as the tables want them ([`laws`]).
//!
//! Not here: names in constant values (`const_evaluator`), how typedefs and services lead to one another (`idl_types`), and types with
//! typedefs resolved.
#![tactic(auto)]

mod adding;
mod bases;
mod before;
mod counts;
mod definitions;
mod dots;
mod enums;
mod fields;
mod filed;
mod functions;
mod ids;
pub mod laws;
mod marks;
mod name_maps;
mod spot;
mod spots;
mod tables;
mod type_uses;
mod values;

pub use before::GivenBefore;
pub use counts::{DefinitionCounts, no_counts, with_definition};
pub use definitions::{Definitions, all_definitions};
pub use dots::{is_dotted, split_last_dot};
pub use filed::{InFile, Named};
pub use ids::{enum_numbers, field_ids};
pub use marks::{NameSet, was_seen};
pub use name_maps::{NameMap, note, number_of_name};
pub use spot::{EnumValueSpot, FieldSpot, FunctionSpot, GivenName, GivenTree, ShownIn, SpotIn};
pub use spots::program_spots;
pub use tables::{ConstName, NameTables, TypeName, name_tables};
pub use values::values_at;
