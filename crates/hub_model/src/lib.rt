//! A hub: a hall that several loops share, each with connections of its own, in definitions and laws.
//!
//! The files of `specs/`, in reading order: the hub; its rule; what may be asked of it; what one loop sees of it, which is a
//! hall of its own (`Seen`); what the hub is beside that, a hall of which no outcome is collected (`OneHall`); and what is
//! promised of a run (`Talk`). So the laws of `machine_model` hold of each loop, and those of the one journal of all. Nothing
//! runs.
//!
//! A crate above cites a law where its proof needs it:
//!
//! ```rust
//! own_calls_of_a_hub_suffice::<Call, Answer, Memory>();
//! ```
#![tactic(auto)]

pub mod laws;
