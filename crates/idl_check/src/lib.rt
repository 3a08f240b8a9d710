//! The check of a program of IDL files: its schema, or its first fault; and from the name of an IDL to the schema of its files, or to why there is none.
//!
//! ```
//! let schema = check(alloc, &sources)?;                         // `sources` as loading gives them
//! match program_schema(alloc, files, "a.thrift") {
//!     Err(NoSchema::Refused(refusal)) => refusal.error_line(alloc)?, // thriftd: idl a.thrift 1:8 Found
//!     ..
//! }
//! ```
//!
//! The passes over spots come first, then the values, each evaluated over the schema without defaults and constants. That schema is made
//! once: the search for endless structs looks at it, values are evaluated beside it, and it becomes the whole one. What is there moves into the whole
//! schema, and each value is moved to the field or the constant that it is given for: nothing is copied but names and types of constants.
//!
//! The files come from a store, but those of `@tutorial`, which the program holds. Faults of loading and of the check become one kind of refusal, with a file, a
//! place and a word for each kind. By [`refusal_laws`] each IDL has one verdict, and by [`sound_laws`] the schema of a program that is accepted is sound.
//!
//! In `specs/` stand, in reading order: names as documents give them (`Identifiers`); what a program's definitions owe to the texts of its files
//! (`DeclaredTexts`); on which passes a schema's soundness stands (`Clean`); the verdict on an IDL (`Verdicts`).
#![tactic(auto)]

mod checking;
mod constants;
mod fields;
mod kinds;
pub mod laws;
mod program;
mod refusal;
pub mod refusal_laws;
mod services;
mod sites;
pub mod sound_laws;
mod structs;
mod tutorial;
mod values;
mod whole;
mod worths;

pub use checking::check;
pub use kinds::IdlFaultKind;
pub use program::{program_schema, program_text};
pub use refusal::{IdlRefusal, NoSchema};
pub use whole::whole_schema;
