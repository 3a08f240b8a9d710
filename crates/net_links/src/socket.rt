//! One read or one write of a socket.

ghost use Rattle.std.specs.Prelude.{◌≤◌, ◌<◌, length};
ghost use Rattle.net_links.specs.Transfers.{HasMovedWithin};

use mio::net::TcpStream;
use std::io::{ErrorKind, Read, Write};

/// A call that a signal cuts off is made again, so often at most.
const TRIES: u32 = 16;

/// What a read or a write of a socket came to.
#[derive(Clone, Copy)]
pub(crate) enum Transfer {
    /// So many bytes were moved, one at least.
    Bytes(usize),
    /// None was moved: at a read the input has ended.
    Nothing,
    /// It isn't possible yet.
    Blocked,
    /// It failed.
    Failed,
}

/// Reads what has arrived to the front of `into`.
pub(crate) fn receive(mut stream: &TcpStream, into: &mut [u8]) -> Transfer
    ensures { HasMovedWithin (length into.new) result }
{
    for _ in 0..TRIES {
        match stream.read(into) {
            Ok(0) => return Transfer::Nothing,
            Ok(count) => return Transfer::Bytes(count),
            Err(error) => match error.kind() {
                ErrorKind::WouldBlock => return Transfer::Blocked,
                ErrorKind::Interrupted => {}
                _ => return Transfer::Failed,
            },
        }
    }
    Transfer::Failed
}

/// Writes bytes off the front of `bytes`.
pub(crate) fn send(mut stream: &TcpStream, bytes: &[u8]) -> Transfer
    ensures { HasMovedWithin (length bytes.now) result }
{
    for _ in 0..TRIES {
        match stream.write(bytes) {
            Ok(0) => return Transfer::Nothing,
            Ok(count) => return Transfer::Bytes(count),
            Err(error) => match error.kind() {
                ErrorKind::WouldBlock => return Transfer::Blocked,
                ErrorKind::Interrupted => {}
                _ => return Transfer::Failed,
            },
        }
    }
    Transfer::Failed
}
