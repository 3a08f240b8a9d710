//! Links over a script: its lines give connections, pieces, ends and rests in their order, each connection's rules govern the
//! writes on it, and everything is told. A binder in memory has links that listen over a script, and accept so many connections at most, and dials pipes
//! that answer bytes which were given. The crate knows no frame, and opens no socket.
//!
//! ```rust
//! let mut links = ScriptLinks::new(alloc, read_script(alloc, b"open\ndata 0 00000001\nend 0\n", 0, false, true)?)?;
//! let first = links.next(&rt, Ask { idle: true, room: true, held: false })?;      // Opened(0)
//!
//! let mut binder = MemBinder::new(script, fails);
//! let mut links = binder.listen(alloc, 9090, 2)?;
//! binder.take_back(links);
//! ```
#![tactic(auto)]

mod binder;
mod bound;
mod building;
mod call_list;
mod called;
mod connections;
mod copy;
pub mod laws;
mod link;
mod mark_log;
mod mem_pipe;
mod over_script;
mod past;
mod serving;
mod step;
mod transfers;

pub use binder::MemBinder;
pub use bound::BoundLinks;
pub use mem_pipe::MemPipe;
pub use over_script::{ScriptBell, ScriptLinks};
pub use script_text::{
    RuleList, RuleLists, Script, ScriptFault, ScriptKind, ScriptLine, ScriptLines, WriteRule,
    print_script, read_script,
};
