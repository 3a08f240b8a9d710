//! What ties a connection's state in a table to the machine's connection: definitions, and laws of what a read makes on both sides and of what a
//! table adds up. It runs nothing.
//!
//! A loop that keeps its connections in a table cites them where its proofs need them: `specs/Phases.antt` says what a phase tells, and
//! `specs/Tables.antt` of which one connection alone has changed.
#![tactic(auto)]

pub mod laws;
