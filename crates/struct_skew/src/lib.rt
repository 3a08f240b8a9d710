//! Structs as a schema declares them, from structs as anyone sent them: whatever version of the IDL the writer had, a
//! projection keeps the known fields, puts in defaults, and names what is missing.
//!
//! ```
//! let needed = needed_fields(alloc, &schema)?;                                        // once a schema
//! match read_as_with::<BinaryWire>(alloc, &schema, &needed, which, payload, at) {     // of binary_codec, or CompactWire
//!     Ok((value, behind)) => call(value),                                             // the declared fields alone
//!     Err(ArgFault::Skew(SkewFault::Missing(which, id))) => complain(which, id),      // and so on
//!     Err(_) => give_up(),
//! }
//! let value = project_with(alloc, &schema, &needed, which, &raw)?;                    // of a struct that stands in memory
//! if may_go_out(&schema, &needed, &kind, &value, 63) {   // what a handler answered: tidy, of 63 levels at most, and of the type
//!     write(value);
//! }
//! ```
//!
//! What a raw field counts for, and what a raw struct means, is said by `specs/Fits.antt`, `Offers.antt`, `Latest.antt` and
//! `Projection.antt`, in this order; [`worked_fields`] and its kin have worked rows. Whether a value may be written under a type is
//! said by `specs/WrittenTests.antt`, as a test that computes; [`the_tests_decide`] ties it to the schema's definition. [`may_go_out`]
//! asks that, tidiness and depth in one walk, by the test of `specs/OutgoingTests.antt`.
//!
//! [`read_as`] first reads by type alone, which goes through only where all is in order: ids, keys and members rise, each field is
//! declared and of its type, and none is missing that has to be there or has a default. Anything else is read from the start by what
//! is known of it, and what was read is handed on where it means itself, and else settled in its own tree. What stands in memory
//! already stays: a copy of it is settled.
//!
//! Not here: how bytes stand for values, which a protocol says as a type. A projection recurses once a level of the raw value, and
//! `fits` and `may_go_out` once a level of their value. Where the defaults of a projection take more than 320 MB it answers want of
//! memory, since few bytes can ask for many of them.
#![tactic(auto)]

mod ahead;
mod arg_fault;
mod declared;
mod fault;
mod in_place;
mod kinds;
mod laws;
mod needs;
mod order;
mod outgoing;
mod plan;
mod public;
mod reading;
mod rising;
mod rows;
mod settled;
mod settled_reading;
mod slots;
mod structs;
mod values;
mod written;

pub use arg_fault::ArgFault;
pub use fault::SkewFault;
pub use kinds::fits_kind;
pub use laws::{
    a_fault_names_what_is_declared, a_filled_value_is_its_projection, a_found_function_is_sound,
    a_projection_is_of_its_type, settled_values_mean_themselves, the_tests_decide,
    what_is_known_decides,
};
pub use needs::{NeededFields, needed_fields};
pub use outgoing::may_go_out;
pub use public::{project, project_value, project_with};
pub use reading::{read_as, read_as_with};
pub use rows::{
    a_projection_is_bounded, worked_containers, worked_fields, worked_levels, worked_unions,
};
pub use settled::is_settled;
pub use written::{fits, fits_with};
