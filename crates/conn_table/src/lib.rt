//! The open connections of a host, by number, and the read budget that the sizes of their frames keep within.
//!
//! A connection is added at its opening and removed once it has ended; in between, each call of its state goes through the
//! table. A frame is read only once its size is admitted, and its size is given back when its outcome was collected, or
//! when the connection has ended:
//!
//! ```rust
//! let mut table = Table::new(alloc, limits.read_budget)?;
//! table.add(c);
//! table.took(c, &into[..count], limits.max_frame);
//! if table.conn(c).asks().is_some() && table.admit(alloc, c)? {
//!     // the frame may be read
//! }
//! ```
#![tactic(auto)]

mod hints;
pub mod laws;
mod places;
mod run_limits;
mod table;

pub use run_limits::{Ends, Limits, Outcome};
pub use table::Table;
