//! Whether a new schema reads what an old one wrote.
#![tactic(auto)]

mod break_kind;
mod laws;
mod rows;

pub use break_kind::BreakKind;
pub use laws::{
    a_break_is_no_compatibility, a_written_value_has_a_meaning, compatible_values_are_kept,
    the_break_is_determined,
};
pub use rows::{
    worked_compatible, worked_functions, worked_reaches, worked_structs, worked_types,
    worked_values,
};
