//! The calculator of the Thrift tutorial, as a handler: it adds and calculates, and keeps the text of each value that it calculated.
//!
//! ```
//! let mut calculator = Calculator::new(alloc);
//! let answer = calculator.answer(alloc, b"add", &args)?;      // Success(I32(2)) for {1=1i,2=1i}
//! ```
//!
//! What it answers is `call_rules`' definition of this kind. It knows the shapes of its functions and no schema.
#![tactic(auto)]

mod handler;
mod numbers;
mod structs;

pub use handler::Calculator;
