//! A client's bytes come back, and the links tell of its end.

use net_links::{NetBinder, NetLinks};
use outside::{Ask, Binder, Hint, Links, Taken};
use std::io::{Read, Write};
use std::net::{Ipv4Addr, Net, Shutdown, SocketAddr, TcpStream};
use std::sync::Wait;
use std::test::Fail;
use std::{io, thread};

/// One asks so that anything may come next.
pub(crate) const ASK: Ask = Ask {
    idle: true,
    room: true,
    held: false,
};

/// Connects to a port of the loopback address.
pub(crate) fn connected<N: Net<Stream = TcpStream>>(net: &N, port: u16) -> io::Result<TcpStream> {
    TcpStream::connect(net, SocketAddr::from((Ipv4Addr::LOCALHOST, port)))
}

/// Reads the end, where nothing more comes.
pub(crate) fn read_end(stream: &mut TcpStream) -> io::Result<()> {
    match stream.read(&mut [0u8; 1])? {
        0 => Ok(()),
        _ => Err(io::Error::from(io::ErrorKind::InvalidData)),
    }
}

/// Sends bytes in pieces, and reads what comes back to its end.
fn ask(stream: &mut TcpStream) -> io::Result<[u8; 12]> {
    stream.write_all(b"loop")?;
    stream.write_all(b"back")?;
    let mut back = [0u8; 12];
    stream.read_exact(&mut back[..8])?;
    stream.write_all(b"end.")?;
    stream.shutdown(Shutdown::Write)?;
    stream.read_exact(&mut back[8..])?;
    read_end(stream)?;
    Ok(back)
}

/// Whether what a client sends comes back.
fn is_echoed<N: Net<Stream = TcpStream>>(net: &N, port: u16) -> bool {
    let Ok(mut stream) = connected(net, port) else {
        return false;
    };
    match ask(&mut stream) {
        Ok(back) => &back == b"loopbackend.",
        Err(_) => false,
    }
}

/// Writes back what was read of a connection, and closes it where it ended.
fn echo(links: &mut NetLinks, c: u32) {
    let mut into = [0u8; 5];
    for _ in 0..100 {
        if !links.is_open(c) {
            return;
        }
        match links.read(c, &mut into) {
            Taken::Bytes(count) => {
                links.write(c, &into[..count]);
            }
            Taken::NotYet => return,
            _ => links.close(c),
        }
    }
}

/// Echoes what comes on all connections, and answers how many were opened.
fn serve<R: Wait>(rt: &R, links: &mut NetLinks) -> Option<u32> {
    let mut opened = 0u32;
    for _ in rt.forever() {
        match links.next(rt, ASK).ok()? {
            Hint::Opened(c) => opened = c.saturating_add(1),
            Hint::Readable(c) | Hint::Writable(c) => echo(links, c),
            Hint::Woken => {}
            Hint::Over => break,
        }
    }
    Some(opened)
}

#[test]
fn what_clients_send_comes_back(rt: HostRuntime) -> Result<(), Fail> {
    let mut binder = NetBinder::new(&rt);
    let mut links = binder.listen(rt.alloc(), 0, 2)?;
    let port = links.port()?;
    let first = thread::spawn(&rt, move || is_echoed(&rt, port))?;
    let second = thread::spawn(&rt, move || is_echoed(&rt, port))?;
    let opened = serve(&rt, &mut links);
    let echoed = [first.join(&rt), second.join(&rt)];
    let taken = binder.listen(rt.alloc(), port, 1).is_err();
    binder.take_back(links);
    assert!(rt; opened == Some(2) && echoed == [true, true]);
    assert!(rt; taken && binder.faults() == 1);
    Ok(())
}
