//! Whether the values and calls of an old schema survive a new one.
//!
//! ```
//! match compat(alloc, &old, &new) {
//!     Ok(()) => go_on(),                                     // each side reads what the other writes
//!     Err(found) => tell(found.name, found.id, found.kind),  // the first break, or `NoMemory`
//! }
//! ```
//!
//! What a break is, and which comes first, is said by `compat_model`. Structs, services and functions are looked up in tables by
//! their names. A pair of structs is looked at once, however many fields lead to it. Before types are compared their parts are
//! counted as steps: more than 64,000,000 steps in all, or 4,000,000 pairs, are answered as want of memory, so that no two schemas
//! take long. Types are walked by recursion, once a level.
#![tactic(auto)]

mod answering;
mod change;
mod faults;
mod fresh;
mod functions;
mod likeness;
mod lines;
mod names;
mod pair;
mod pairs;
mod rounds;
mod served;
mod services;
mod steps;

pub use answering::{Break, compat};
