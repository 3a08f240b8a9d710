//! What a call, its answer and the journal of calls are, and what stands on either side of a call: a desk decides on payloads and
//! makes replies, a handler answers.
//!
//! ```
//! // A worker settles a payload: the desk decides, the handler of the call's slot answers, and the desk makes the reply.
//! match desk.decide(alloc, payload)? {
//!     Decision::Invoke(call) => {
//!         let answer = handler.answer(alloc, call.method.as_slice(), &call.args)?;
//!         let frame = desk.reply(alloc, payload, &answer)?;     // where the call isn't silent
//!     }
//!     other => ..
//! }
//! ```
//!
//! The definitions speak of calls as plain data over trees (`specs/PlainCalls.antt`), so that equality in memory plays no part. How
//! each kind of handler answers is defined here, once (`specs/Handling.antt`): the handlers themselves stand in crates of their own,
//! as desks and journals do. A desk means a number of slots, a longest payload, decisions and replies (`specs/Desks.antt`).
#![tactic(auto)]

mod arguments;
mod call;
mod decision;
mod desk;
pub mod examples;
mod handler;
mod journal;
mod kind;
mod laws;
mod shapes;

pub use arguments::{
    argument, bytes_passed, fields_passed, first_value, number_passed, number_with_id,
};
pub use call::{Answer, Call, Entry};
pub use decision::Decision;
pub use desk::Desk;
pub use handler::Handler;
pub use host_model::Key;
pub use journal::Journal;
pub use kind::Kind;
pub use laws::services_answer_plainly;
pub use shapes::are_shapes;
