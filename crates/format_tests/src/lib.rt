//! Tests of the ground, the wire and the IDL, of what they show to no one but their callers; what the program shows stands in rows/.
//!
//! - Ground: the search for cycles in graphs (`graph_cycles`) beside a plain one; the plain programs of a whole run's
//!   definitions (`plain_machine`) on small examples; the system's streams and files (`outside`), of which no contract tells
//!   what they give and take; and the largest value (`thrift_value`).
//! - Wire: `envelope` and the two codecs, `binary_codec` and `compact_codec`, beside what Apache Thrift's own library writes: structs, heads and exceptions.
//! - IDL: what the lexer tells beside tokens (`idl_token`); trees that are printed (`idl_printer`); and files in memory whose
//!   reads fail, or whose names begin at the root (`idl_include`).
#![tactic(auto)]

#[cfg(test)]
mod apache;
#[cfg(test)]
mod compact_head_vectors;
#[cfg(test)]
mod compact_struct_vectors;
#[cfg(test)]
mod cycles;
#[cfg(test)]
mod exception_vectors;
#[cfg(test)]
mod exceptions;
#[cfg(test)]
mod head_vectors;
#[cfg(test)]
mod heads;
#[cfg(test)]
mod loading;
#[cfg(test)]
mod printed;
#[cfg(test)]
mod struct_vectors;
#[cfg(test)]
mod structs;
#[cfg(test)]
mod system;
#[cfg(test)]
mod tokens;
#[cfg(test)]
mod uuids;
#[cfg(test)]
mod values;
#[cfg(test)]
mod worlds;
