//! The loop's part over links: the connections of one poll, what is kept of each, and what it does with them.
//!
//! Each call keeps the loop's own order of what it did a part of a run of the machine (`specs/Woven.antt`), whatever hall it submits to:
//!
//! ```rust
//! let mut conns = LoopConnections::new(alloc, read_budget)?;
//! conns.make_place()?;
//! match conns.next(rt, links, held)? {
//!     Hint::Readable(c) if conns.is_open(c) => match conns.read(links, c, &mut buffer, max_frame) {
//!         ReadStep::Whole => { let (number, payload) = conns.give(c); .. }       // which is submitted
//!         ..
//!     },
//!     ..
//! }
//! conns.settle(links, key, settled);                                       // an outcome that was collected
//! ```
//!
//! It knows no hall, no booth, no worker and no thread.
#![tactic(auto)]

mod admitting;
mod asking;
mod closing;
mod connections;
mod reading;
mod settling;
mod stopping;
mod writing;

pub use admitting::Admission;
pub use connections::{ConnStage, LoopConnections};
pub use reading::ReadStep;
pub use writing::WriteStep;
