//! What a schema knows of a struct that anyone sent: its declared fields that fit, in the order in which they were sent and with
//! those that stand twice. All else is passed over. Nothing is judged here: what is missing, what counts of several, and what of
//! a union was sent is said by `struct_skew`, which finds the same of the known part as of the whole.
//!
//! What is known of a value is said by `specs/Known.antt`; [`worked_known_fields`] and its kin have worked rows. Who else reads by
//! type takes the levels, the texts and the room for what is read from here: [`deeper`], [`kept_text`], [`keep`].
#![tactic(auto)]

mod kinds;
mod laws;
mod parts;
mod passing;
mod public;
mod rest;
mod rows;
mod walk;

pub use kinds::{
    are_same_tags, list_of_kind, map_of_kind, set_of_kind, struct_of_kind, tag_of_kind,
};
pub use laws::{empty_headers_name_bools, known_parts_are_smaller};
pub use parts::{
    MOST_EXPECTED, MOST_EXPECTED_FIELDS, declared_field, deeper, keep, kept_text, make_room, put,
};
pub use public::read_known;
pub use rows::{worked_known_containers, worked_known_fields};
