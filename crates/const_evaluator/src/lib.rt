//! The constants of a program evaluated over its tables: names in constant values looked up, values of enums, the values that a program gives by number.
//!
//! ```
//! let places = value_places(alloc, values.as_slice())?;         // `values` as `values_at` tells them
//! let constants = const_names(alloc, &names, &definitions, &places)?;
//! let port = constants.const_named(0, b"shared.DEFAULT_PORT");  // a number of an enum, a given value by its number, or none
//! let ground = program_ground(alloc, &constants, &definitions, &places, values.as_slice(), &schema)?;
//! let mut evaluator = program_evaluator(alloc, &ground, &types)?;
//! let made = evaluate_all(alloc, &mut evaluator, values.as_slice())?;
//! ```
//!
//! [`ProgramGround`] is what `idl_const` asks of a program, over its names, its given values and its schema without defaults;
//! [`ProgramEvaluator`] is who evaluates the values of a program, as `check_passes` asks for one. Of each struct there is a table,
//! made once: its fields by name, and those that a literal owes; of each given value it is known where its chain of mere names ends. Tables are made in time that
//! grows with the texts and the schema, and a look-up takes no memory.
//!
//! Make the tables once it is known that each enum's numbers have 32 bits: at the end of 64 bits they are want of memory, as are two values that are given at one
//! place. Want of memory is also the answer where the ids of a struct's fields do not rise, and past 4,000,000 types.
#![tactic(auto)]

mod chain_ends;
mod enum_tables;
mod evaluator;
mod given_fields;
mod ground;
mod places;
mod struct_tables;
mod tables;

pub use evaluator::{ProgramEvaluator, program_evaluator};
pub use ground::{ProgramGround, program_ground};
pub use places::{ValuePlaces, value_places};
pub use tables::{ConstNames, const_names};
