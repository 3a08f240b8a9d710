//! The passes over a program of IDL files, each for the first fault of its kind: what a checker answers where it refuses a program.
//!
//! ```
//! let spots = program_spots(alloc, files)?;
//! name_fault(&names, spots.as_slice())?;                        // dots, equal names, names that stand for nothing
//! list_fault(typedef, service, spots.as_slice())?;              // the least typedef and service that lead to themselves, or none
//! function_fault(&lineage, spots.as_slice())?;                  // who knows what services inherit
//! struct_fault(&names, structs, aliases, finite, spots.as_slice())?;
//! let values = evaluate_all(alloc, &mut evaluator, given.as_slice())?;
//! ```
//!
//! A pass is a test of one spot ([`SpotTest`]) over all spots in order; a test holds what it looks at, which is right for a program.
//! The last pass goes over the values that a program gives ([`Evaluator`]).
//!
//! [`typed_program`] makes what the passes over spots look at, each where those before found nothing, and keeps the types.
//!
//! Not here: who evaluates the values, and the schema of a program without fault.
#![tactic(auto)]

mod cycle_tests;
mod faults;
mod function_tests;
pub mod laws;
mod lineage;
mod name_tests;
mod pass;
mod passes;
mod places;
mod program;
mod spot_facts;
mod spot_tests;
mod struct_tests;
mod thrown_tests;
mod values;

pub use faults::{CheckFault, CheckKind};
pub use function_tests::Lineage;
pub use pass::{SpotTest, first_fault};
pub use passes::{function_fault, list_fault, name_fault, struct_fault};
pub use program::{TypedProgram, typed_program};
pub use values::{Evaluator, evaluate_all};
