//! One connection's machine: the bytes of framed messages go in piece by piece, whole payloads come out, and a reply
//! goes back in pieces too. It reads and writes nothing itself, decides nothing about a payload, and takes memory only
//! to admit a frame.
//!
//! Read at most `want` bytes and hand them to `took`; at `asks` call `admit`; `give` hands out a payload, `answered`
//! takes its outcome, and `pending` and `wrote` write the reply (Thrift framed transport). One frame, with `frames` read before:
//!
//! ```rust
//! let count = source.read(&mut into[..conn.want()])?;
//! conn.took(&into[..count], max_frame);
//! if conn.asks().is_some() {
//!     conn.admit(alloc)?;
//! } else if conn.frames() > frames {
//!     let (number, payload) = conn.give();
//!     conn.answered(settle(number, payload));
//!     let count = sink.write(conn.pending())?;
//!     conn.wrote(count);
//! }
//! ```

#![tactic(auto)]

pub mod laws;
mod machine;
mod size_bytes;

pub use host_model::EndCause;
pub use machine::Conn;
