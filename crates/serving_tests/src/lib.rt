//! Tests of calls and of what waits, where something fails or the program doesn't show it: a recorded connection (`recorded_runs`), and runs of two (`cell_core`)
//! beside the plain machine (`plain_machine`); texts of values (`value_text`), entries' lines, and journals (`journal_text`); scripts, printed (`script_text`,
//! `workload`); the booth (`seat_booth`); serving (`host_loop`) with journals and links that fail, a client that doesn't pause, and one over loopback; a port that is
//! asked (`port_calls`); links and pipes over sockets (`net_links`). What is decided and answered, and what scripts of several connections come to, the program
//! itself shows in rows/; what meets at a gate is tested through the command, in `host_tests`.
#![tactic(auto)]

#[cfg(test)]
mod breaking;
#[cfg(test)]
mod byte_desk;
#[cfg(test)]
mod dialling;
#[cfg(test)]
mod echo;
#[cfg(test)]
mod entries;
#[cfg(test)]
mod example;
#[cfg(test)]
mod faulty_journals;
#[cfg(test)]
mod journal;
#[cfg(test)]
mod journals;
#[cfg(test)]
mod lines;
#[cfg(test)]
mod loopback;
#[cfg(test)]
mod machines;
#[cfg(test)]
mod offices;
#[cfg(test)]
mod pipelining;
#[cfg(test)]
mod plain_runs;
#[cfg(test)]
mod prints;
#[cfg(test)]
mod recordings;
#[cfg(test)]
mod running;
#[cfg(test)]
mod sending;
#[cfg(test)]
mod stops;
#[cfg(test)]
mod sums;
#[cfg(test)]
mod value_texts;
#[cfg(test)]
mod waking;
