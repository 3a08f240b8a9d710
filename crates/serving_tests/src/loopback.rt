//! A client calls over a loopback socket.

ghost use Rattle.std.specs.Prelude.{◌≤◌};
ghost use Rattle.outside.specs.Opening.{AreFreshLinks};

use crate::echo::{connected, read_end};
use crate::running::{NEVER, serve_links};
use conn_table::Outcome;
use host_model::EndCause;
use net_links::NetBinder;
use outside::{Binder, Links};
use std::alloc::Global;
use std::io::{Read, Write};
use std::net::{Net, Shutdown, TcpStream};
use std::sync::Wait;
use std::test::Fail;
use std::thread::Threads;
use std::{io, thread};

/// Calls three times, the second time silently, and reads the replies to their end.
fn ask(stream: &mut TcpStream) -> io::Result<[u8; 10]> {
    let mut back = [0u8; 10];
    stream.write_all(&[0, 0, 0, 1, 5])?;
    stream.read_exact(&mut back[..5])?;
    stream.write_all(&[0, 0, 0, 2, 1, 1, 0, 0])?;
    stream.write_all(&[0, 1, 6])?;
    stream.shutdown(Shutdown::Write)?;
    stream.read_exact(&mut back[5..])?;
    read_end(stream)?;
    Ok(back)
}

/// Whether each call is replied to that isn't silent.
fn is_answered<N: Net<Stream = TcpStream>>(net: &N, port: u16) -> bool {
    let Ok(mut stream) = connected(net, port) else {
        return false;
    };
    match ask(&mut stream) {
        Ok(back) => back == [0, 0, 0, 1, 5, 0, 0, 0, 1, 6],
        Err(_) => false,
    }
}

/// Whether so many workers serve all calls of two clients, to the end of each.
fn serves_two<L: Links, R: Threads + Wait + Sync>(
    rt: &R,
    alloc: Global,
    links: &mut L,
    workers: u32,
) -> bool
    requires fresh { AreFreshLinks (L.state links.old) }
    requires few { workers ≤ 8 }
{
    match serve_links(rt, alloc, links, NEVER, workers) {
        Some(served) => {
            served.outcome == Outcome::All
                && served.journal.keys.len() == 6
                && served.ends.as_slice() == [EndCause::End, EndCause::End].as_slice()
        }
        None => false,
    }
}

#[test]
fn clients_are_served(rt: HostRuntime) -> Result<(), Fail> {
    for workers in [0, 2] {
        let mut binder = NetBinder::new(&rt);
        let mut links = binder.listen(rt.alloc(), 0, 2)?;
        let port = links.port()?;
        let first = thread::spawn(&rt, move || is_answered(&rt, port))?;
        let second = thread::spawn(&rt, move || is_answered(&rt, port))?;
        let served = serves_two(&rt, rt.alloc(), &mut links, workers);
        let answered = [first.join(&rt), second.join(&rt)];
        binder.take_back(links);
        assert!(rt; served && answered == [true, true] && binder.faults() == 0);
    }
    Ok(())
}
