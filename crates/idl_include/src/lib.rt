//! The files of a program: `load` reads the main file, follows each include in order, and answers the documents of all files, or the
//! first fault. And what a program of IDL files is, by definitions and laws: what its files declare, how they are loaded, and what names in them
//! stand for. Whether names are defined and constants fit is the checker's matter.
//!
//! ```
//! let sources = load(alloc, &mut files, "main.thrift")?;
//! ```
//!
//! The files of `specs/`, in reading order: names and literals with their places (`Written`); types, constant values and
//! declarations as they are written (`TypeExpr`, `ConstExpr`, `Declarations`), decoded from the parser's tree (`Decoded`) and
//! from a document in memory (`DeclaredIn`); names of files and a program's files (`FileNames`, `Program`); what a file is
//! read as, and loading (`Readings`, `Loading`); definitions by number (`Numbering`); what names stand for (`Names`,
//! `ConstNames`); ids of fields and numbers of enums (`FieldIds`, `EnumNumbers`); how typedefs and services lead to one another
//! (`Cycles`); and what a check looks at, in reading order (`Spots`).
//!
//! `load` says in its contract, where files are told, that it answers `program_of reader main` for each reader
//! of these files; by [`laws`] there is one such reader, and it says one thing.
#![tactic(auto)]

pub mod examples;
mod faults;
pub mod laws;
mod links;
mod meanings;
mod names;
mod opening;
mod reading;
mod sources;
mod walk;

pub use faults::{LoadFault, LoadKind};
pub use sources::{IdlFile, Sources};
pub use walk::load;
