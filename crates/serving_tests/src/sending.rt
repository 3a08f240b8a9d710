//! More is written than the sockets take, by a loop whose client has sent its end and reads late.

use crate::echo::{ASK, connected};
use net_links::{NetBinder, NetLinks};
use outside::{Binder, Hint, Links, Taken};
use std::alloc::{AllocError, Global};
use std::io::Read;
use std::net::{Net, Shutdown, TcpStream};
use std::sync::Wait;
use std::test::Fail;
use std::time::{Clock, Duration};
use std::{io, thread};
use streams::Failed;

/// So many bytes are written in all, far more than a socket takes.
const ALL: u64 = 40_000_000;

/// Sends its end, reads all late, and answers how many bytes came, each of which is one more than the one before it.
fn read_late<C: Clock>(clock: &C, stream: &mut TcpStream) -> io::Result<u64> {
    stream.shutdown(Shutdown::Write)?;
    thread::sleep(clock, Duration::from_millis(100));
    let mut into = [0u8; 3_001];
    let mut came = 0u64;
    for _ in 0..ALL {
        let count = stream.read(&mut into)?;
        if count == 0 {
            break;
        }
        for byte in &into[..count] {
            if u64::from(*byte) != came % 251 {
                return Err(io::Error::from(io::ErrorKind::InvalidData));
            }
            came = came.saturating_add(1);
        }
    }
    Ok(came)
}

/// Whether all bytes come to a client that reads late.
fn comes_whole<N: Net<Stream = TcpStream> + Clock>(net: &N, port: u16) -> bool {
    let Ok(mut stream) = connected(net, port) else {
        return false;
    };
    match read_late(net, &mut stream) {
        Ok(came) => came == ALL,
        Err(_) => false,
    }
}

/// What has become of a connection on which all is to be written.
#[derive(Clone, Copy)]
struct Sending {
    /// So many bytes were taken.
    taken: u64,
    /// So often a write was put off.
    put_off: u32,
    /// So often the end was put off.
    waited: u32,
}

/// Writes more of all on a connection, and closes it where all is taken and the end is told.
fn send(links: &mut NetLinks, c: u32, bytes: &[u8], sending: &mut Sending) {
    for _ in 0..ALL {
        if !links.is_open(c) || sending.taken >= ALL {
            break;
        }
        let from = (sending.taken % 251) as usize;
        let left = (ALL - sending.taken).min(20_000) as usize;
        let to = from.saturating_add(left).min(bytes.len());
        if from >= to {
            break;
        }
        match links.write(c, &bytes[from..to]) {
            Taken::Bytes(count) => sending.taken = sending.taken.saturating_add(count as u64),
            _ => {
                sending.put_off = sending.put_off.saturating_add(1);
                return;
            }
        }
    }
    if !links.is_open(c) {
        return;
    }
    match links.read(c, &mut [0u8; 1]) {
        Taken::NotYet => sending.waited = sending.waited.saturating_add(1),
        _ => links.close(c),
    }
}

/// Writes all on the one connection, and answers how often it was put off.
fn serve<R: Wait>(rt: &R, links: &mut NetLinks, bytes: &[u8]) -> Result<Sending, Failed> {
    let mut sending = Sending {
        taken: 0,
        put_off: 0,
        waited: 0,
    };
    for _ in rt.forever() {
        match links.next(rt, ASK)? {
            Hint::Opened(c) | Hint::Readable(c) | Hint::Writable(c) => {
                send(links, c, bytes, &mut sending);
            }
            Hint::Woken => {}
            Hint::Over => break,
        }
    }
    Ok(sending)
}

/// Bytes each of which is one more than the one before it, enough for a write from any remainder.
fn rising(alloc: Global) -> Result<Vec<u8>, AllocError> {
    let mut bytes = Vec::new(alloc);
    for place in 0..20_251u32 {
        bytes.push((place % 251) as u8)?;
    }
    Ok(bytes)
}

/// Whether all is taken of the one connection, and not at once.
fn sends_all<R: Wait>(rt: &R, alloc: Global, links: &mut NetLinks) -> bool {
    let Ok(bytes) = rising(alloc) else {
        return false;
    };
    match serve(rt, links, bytes.as_slice()) {
        Ok(sending) => sending.taken == ALL && sending.put_off > 0,
        Err(_) => false,
    }
}

#[test]
fn nothing_that_was_taken_is_lost(rt: HostRuntime) -> Result<(), Fail> {
    let mut binder = NetBinder::new(&rt);
    let mut links = binder.listen(rt.alloc(), 0, 1)?;
    let port = links.port()?;
    let client = thread::spawn(&rt, move || comes_whole(&rt, port))?;
    let sent = sends_all(&rt, rt.alloc(), &mut links);
    let came = client.join(&rt);
    binder.take_back(links);
    assert!(rt; sent && came && binder.faults() == 0);
    Ok(())
}
