//! Tests of the program through its top call (`thrift_host`), where files in rows/ can't show them: commands of which each call on a device fails in turn, a port
//! that is served in memory, with a journal among the files, and calls that meet or are counted at a gate.
#![tactic(auto)]

#[cfg(test)]
mod faults;
#[cfg(test)]
mod gates;
#[cfg(test)]
mod given;
#[cfg(test)]
mod ports;
