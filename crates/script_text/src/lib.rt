//! Scripts of many connections: the text of a script read to its lines and rules, or to its first fault, and printed again.
//! It runs no script; what a script makes of a run is said in `script_model`.
//!
//! A script that was read is sound: its print is read as itself, so no line of it has a fault; and it lets each of its
//! connections end, with as many workers as it was read for (`laws`).
//!
//! ```rust
//! let script = read_script(alloc, b"open\ndata 0 00000001\nwrite 0 5\nend 0\n", 0, true, true)?;
//! for line in script.lines().as_slice() { .. }
//! let text = print_script(alloc, &script)?;     // open, write 0 5, data 0 00000001, end 0
//! ```
#![tactic(auto)]

mod digits;
mod draft;
mod fault;
pub mod laws;
mod lines;
mod print;
mod read;
mod script;
mod words;

pub use fault::{ScriptFault, ScriptKind};
pub use lines::{RuleList, RuleLists, ScriptLine, ScriptLines, WriteRule};
pub use print::print_script;
pub use read::read_script;
pub use script::Script;
