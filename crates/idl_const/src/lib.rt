//! Constants evaluated: what a constant value of an IDL is worth against a type, or its first fault and its place.
//!
//! ```
//! let mut work = no_progress(&ground, alloc)?;
//! let first = evaluate_given(&ground, alloc, &mut work, 0, &kind)?;  // the first value of the program, under evaluation itself
//! ```
//!
//! What is asked of a program stands in one trait, [`Ground`]: what a name stands for, which trees are given by number, where chains
//! of mere names end, and what a literal of a struct is made of. Who keeps tables of a program implements it; the clauses speak of the definitions alone.
//!
//! The modules, bottom up: integers, literals and enums against a type (`scalars`), doubles, decided on their digits (`decimals`,
//! `doubles`), members and pairs in order (`rows`, `tidy`), containers by their types (`containers`), ends of chains
//! and marks of what is under evaluation (`chains`, `marks`), texts, which are work by their length (`texts`), and the walk (`walk`),
//! which recurses once a level, at most 64 levels deep. More than 16,000,000 values and names, each 64 bytes of a text counted as one
//! more, in the evaluations of a program's values together, are answered as want of memory.
//! `field_names` finds a struct's fields by name, and `field_rows` makes the row of a literal's fields, for who implements `Ground`; `laws` says that what is evaluated may be written as
//! its type.
//!
//! Not here: tables of names, and the checker, which evaluates all constants and defaults of a program.
#![tactic(auto)]

mod chains;
mod containers;
mod decimals;
mod doubles;
mod evaluation;
mod faults;
mod field_names;
mod field_rows;
mod ground;
mod keeping;
pub mod laws;
mod marks;
mod progress;
mod rows;
mod scalars;
mod texts;
mod tidy;
mod walk;

pub use chains::ChainEnd;
pub use evaluation::{evaluate_given, no_progress};
pub use faults::ConstFault;
pub use field_names::{field_of_name, field_places};
pub use field_rows::{OwedField, field_row};
pub use ground::{FieldEntry, Ground};
pub use progress::Progress;
