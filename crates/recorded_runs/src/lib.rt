//! Recorded connections, answered by any desk and any handlers: a script of their bytes in, the report of the run out; or a workload, made from a seed, with the
//! summary of its run. It knows no names of services, words, files or statuses.
//!
//! A script is a text of lines that open connections, bring them bytes in hexadecimal and end them (`script_text`); the report is the tape, the
//! journal, each connection's end and the number of calls. One call reads the one as a whole and writes the other, without threads; a second has the loop and
//! workers on threads serve links over the script (`script_links`, `host_loop`), where it has no lines of a schedule; a third has them serve a workload:
//!
//! ```rust
//! let limits = Limits { max_frame: 16_384_000, read_budget: 134_217_728 };
//! answer_recorded::<Lines, _, _, _, _, _>(alloc, &mut input, &mut output, &office, handlers, journal, 0, limits).result?;
//! serve_recorded::<Lines, _, _, _, _, _, _, _>(rt, alloc, &mut input, &mut output, &office, handlers, journal, 2, &gate, limits).result?;
//! serve_workload(rt, alloc, &mut output, &office, handlers, journal, 2, &gate, limits, Work { seed: 1, size: 1000 }).result?;
//! ```
//!
//! What a run is stands in `host_model` (`Headline`) and `script_model` (`IsFedBy`, `IsRehearsedTo`), what a desk decides and a handler answers
//! in `call_rules`. What an answer says of its input and its output stands in `specs/Answered.antt`, with workers in `specs/Recorded.antt`. What the
//! summary of a workload is stands in `workload` (`work_text`), and what the office has to serve there too (`IsCalculatorsOffice`).
#![tactic(auto)]

mod answering;
mod fault;
mod input;
pub mod laws;
mod refusal;
mod serving;
pub mod serving_laws;
mod summing;
pub mod workload_laws;
mod workloads;

pub use answering::{Answered, answer_recorded};
pub use fault::ServingFault;
pub use input::read_input;
pub use refusal::put_refused_script;
pub use serving::serve_recorded;
pub use workloads::{Work, serve_workload};
