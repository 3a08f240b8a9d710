//! The loop's part of the machine without threads: the open connections, what happened on connections, and what a script gives each. It also says what is done with a
//! machine in rehearsal, by definitions and laws: single moves, loops over them, and the lines of a script.
//!
//! Each call is one move of `script_model`'s, of whichever play the part is tied to; so a machine calls it without naming
//! hall and workers:
//!
//! ```rust
//! let opened = part.open()?;                              // true: connection 0
//! part.feeds[0].arrive(piece)?;                           // a line of the script brings it bytes
//! let moved = part.lean_move(alloc, 0, max_frame)?;       // true: its size is read
//! let (number, payload) = part.give(0);                   // once its payload is whole: frame 0
//! part.settle(0, Settled::Reply(reply));                  // which the next move writes
//! ```
//!
//! A play is the machine with what the script gives it. Code that moves a machine in memory learns only then whether memory runs out, so it can't say
//! beforehand how memory is at each move. It says `ComesTo` (`specs/Moving.antt`): memory was so at the moves that it made, and whatever it is like at others, the
//! play comes to this one. So what one call does and what the next one does come to what both do.
#![tactic(auto)]

mod feed;
pub mod laws;
mod loop_part;
pub mod move_laws;
mod reading;
mod writing;

pub use feed::{Feed, InputEnd};
pub use loop_part::{CellStage, LoopPart};
