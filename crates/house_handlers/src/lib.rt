//! The house's own handlers: a store of texts by their keys, and a mirror that answers each call with its first argument.
//!
//! ```
//! let mut store = Store::new(alloc);
//! store.answer(alloc, b"put", &key_and_text)?;               // Empty
//! let answer = store.answer(alloc, b"get", &key)?;           // Success of the text
//! let echo = Mirror::new().answer(alloc, b"anything", &args)?;
//! ```
//!
//! What they answer is `call_rules`' definition of their kinds. A store knows the shapes of its functions, a mirror takes any.
#![tactic(auto)]

mod mirror_handler;
mod store_handler;

pub use mirror_handler::Mirror;
pub use store_handler::Store;
