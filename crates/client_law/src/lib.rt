//! That a client and a host understand one another: what a client asks is what the host decides on, and what the host replies is what
//! the client hears. It is for readers of proofs; nothing runs. The definitions are those of `client_desk` and `call_model`, and
//! `specs/ServedAlone.antt` says which host it is said of.
#![tactic(auto)]

mod laws;

pub use laws::{what_is_asked_is_decided, what_is_replied_is_heard};
