//! The services of a schema that are bound, as a desk: it decides on payloads and makes the replies to calls, in the binary and
//! in the compact protocol.
//!
//! ```
//! let names = BoundNames::new(vec![in alloc; (ByteText::new(b"Calculator".to_vec(alloc)?), 0)]?);
//! let bindings = Bindings::new(alloc, &schema, names)?;                         // walks over the schema once, and sorts its functions
//! let office = Office::new(schema, bindings, Protocol::Binary, 16_384_000);      // takes no memory
//! match office.decide(alloc, payload)? {
//!     Decision::Invoke(call) => {
//!         let answer = handler.answer(alloc, call.method.as_slice(), &call.args)?;
//!         let frame = office.reply(alloc, payload, &answer)?;                       // where the call isn't silent
//!     }
//!     other => ..
//! }
//! ```
//!
//! What is decided and replied is defined in `call_model`: the contracts are those of `call_rules::Desk`, whose meaning here is
//! `desk_of` of what the office holds. A payload is read once, from its head on; a reply reads the head again, and writes the value
//! of an answer that is lent.
//!
//! Not here: connections and frames that come in, how a handler answers, and how a schema is made.
#![tactic(auto)]

mod arguments;
mod bindings;
mod deciding;
mod failures;
mod frames;
mod functions;
mod names;
mod office;
mod replying;
mod results;
mod tabling;

pub use bindings::{Bindings, BoundNames};
pub use office::Office;
