//! A large script that is made from a seed: calls of the tutorial's calculator on up to eight connections. It also gives the summary of
//! a run of it: how many frames there were, how many bytes were read and written, and the sum of the answers.
//!
//! ```rust
//! let script = generate(alloc, 1, 1000)?;
//! let (bytes_in, bytes_out) = (bytes_read(&tape), bytes_written(&tape));
//! let sum = answers.map(|answer| i128::from(answer_adds(answer))).sum();
//! let summary = Summary { connections: 8, frames: 1000, calls, bytes_in, bytes_out, sum };
//! let text = print_summary(alloc, &summary)?;
//! assert!(rt; is_calculator(&schema, service));
//! ```
//!
//! By law ([`run_laws`]) the summary of a run is the one that is expected, where the calculator of the Thrift tutorial answers it. What an office has to serve
//! stands in `specs/Calculators.antt`, and what a run comes to in `specs/Summed.antt`. It runs nothing.
#![tactic(auto)]

pub mod examples;
mod frames;
mod inputs;
pub mod law_examples;
pub mod laws;
mod lines;
mod making;
pub mod run_laws;
mod summary;
mod testing;
mod traffic;

pub use inputs::connections_of;
pub use making::generate;
pub use summary::{Summary, answer_adds, print_summary};
pub use testing::is_calculator;
pub use traffic::{bytes_read, bytes_written};
