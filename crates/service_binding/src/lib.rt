//! Services of a schema, bound to handlers by words `NAME=KIND`.
//!
//! ```
//! // Calculator=calculator shared.SharedService=mirror
//! let pair = pair_of_word(alloc, "shared.SharedService=mirror")?;     // Some((shared.SharedService, Mirror)), or no such word
//! match bind_pairs(alloc, &schema, &pairs, handlers) {
//!     Ok((names, handlers)) => ..                                     // in the order of the pairs
//!     Err(BindFault::Refused(place, kind)) => put_refused_pair(&mut line, &pairs, None, place, kind)?,
//!     ..
//! }
//! ```
//!
//! A word is cut at its first `=` (`specs/Equals.antt`), and both parts are there (`specs/Pairs.antt`). Each pair takes the first
//! handler of its kind that no pair before it has taken. The first pair that can't be bound is told with the reason. A default is the
//! name of a pair (`specs/Defaults.antt`), else it is refused after all pairs. What is bound and what is refused is defined in
//! `specs/Binding.antt`, and which refusal is the first in `specs/FirstRefusal.antt`; that neither is two, and that it isn't both, are
//! laws.
//!
//! Not here: what is made of what is bound, which `thrift_host::bind` says.
#![tactic(auto)]

mod binding;
mod defaults;
pub mod examples;
mod fault;
mod handlers;
mod kinds;
mod laws;
mod pairs;
mod refusals;
mod services;
mod word;
mod word_laws;

pub use binding::{BoundPairs, bind_pairs};
pub use defaults::slot_for_default;
pub use fault::{BindFault, BindKind};
pub use kinds::kind_word;
pub use laws::{bindings_are_determined, refusals_are_determined, what_is_bound_is_not_refused};
pub use pairs::{BindWords, at_equals, pair_of_word};
pub use refusals::put_refused_pair;
pub use word::Word;
pub use word_laws::a_pair_has_its_word;
