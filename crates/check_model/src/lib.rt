//! What a program of IDL files means, by definitions and laws alone: its schema, or its first fault. It is for the crates that
//! evaluate constants and check programs; nothing runs.
//!
//! The files of `specs/`, in reading order: types with typedefs resolved (`Resolved`); fields with their ids (`FieldLists`);
//! structs with finite values (`FiniteValues`); whole doubles, rows in order, and what evaluating comes to (`WholeDoubles`,
//! `TidyRows`, `Worths`); constants of one value, and all constants (`Scalars`, `Evaluation`); the schema part by part
//! (`SchemaParts`); what each pass finds at a spot (`Passes`), and the first fault (`FirstFlaw`); the schema of a program, and
//! the verdict on it (`ProgramSchema`).
//!
//! By [`laws`] each program has a schema or a first fault, one alone, and never both; so files have one verdict.
#![tactic(auto)]

pub mod examples;
pub mod laws;
