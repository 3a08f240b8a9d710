//! Links and pipes over TCP sockets of the loopback address: a binder that listens at a port, and links that are read ahead, gather what is
//! written, and wait in one poll, which any thread ends by a bell; and it dials ports, by pipes that wait in each read and write.
//!
//! They tell nothing of bytes. What they tell is which connections were opened and are open, whether all is over, and their
//! faults (`specs/Account.antt`, and of pipes `specs/Piping.antt`); that the bytes are those that a client sent and gets is for tests.
//!
//! ```rust
//! let mut binder = NetBinder::new(&rt);
//! let mut links = binder.listen(alloc, 9090, 1)?;
//! match links.next(&rt, Ask { idle: true, room: true, held: false })? {
//!     Hint::Opened(c) => ..,      // connections by 0, 1, 2 ..
//!     Hint::Readable(c) => match links.read(c, &mut into) { .. },
//!     Hint::Over => binder.take_back(links),
//!     ..
//! }
//!
//! let mut pipe = binder.dial(alloc, 9090)?;
//! let count = pipe.send(&bytes)?;
//! binder.hang_up(pipe);
//! ```
#![tactic(auto)]

mod account;
mod binder;
mod link;
mod net_links;
mod open_links;
mod pipe;
mod pool;
mod signal;
mod socket;
mod sockets;
mod waiting;

pub use binder::NetBinder;
pub use net_links::NetLinks;
pub use pipe::NetPipe;
pub use signal::NetBell;
