//! A port of the loopback address is asked over a socket, and one where nobody listens.

ghost use Rattle.outside.specs.Opening.{AreFreshLinks};

use crate::running::{NEVER, serve_links};
use conn_table::Outcome;
use net_links::NetBinder;
use outside::{Binder, Links};
use port_calls::{AskingFault, ask_port};
use std::alloc::Global;
use std::net::{Ipv4Addr, Net, OpenListener, SocketAddr, TcpListener};
use std::sync::Wait;
use std::test::Fail;
use std::thread;
use std::thread::Threads;

/// Asks a port, and says what comes of it, and how many faults were counted.
fn ask<N: Net>(net: &N, alloc: Global, port: u16) -> (Result<Option<Vec<u8>>, AskingFault>, u64) {
    let mut binder = NetBinder::new(net);
    let result = ask_port(alloc, &mut binder, port, &[0, 0, 0, 1, 5], true, 8);
    (result, binder.faults())
}

/// Whether the payload comes back from a port, without a fault.
fn is_answered<N: Net>(net: &N, alloc: Global, port: u16) -> bool {
    let (result, faults) = ask(net, alloc, port);
    match result {
        Ok(Some(payload)) => payload.as_slice() == [5].as_slice() && faults == 0,
        _ => false,
    }
}

/// Whether all that comes over links is served by one worker.
fn serves_all<L: Links, R: Threads + Wait + Sync>(rt: &R, alloc: Global, links: &mut L) -> bool
    requires { AreFreshLinks (L.state links.old) }
{
    match serve_links(rt, alloc, links, NEVER, 1) {
        Some(served) => served.outcome == Outcome::All,
        None => false,
    }
}

#[test]
fn a_port_is_asked(rt: HostRuntime) -> Result<(), Fail> {
    let mut binder = NetBinder::new(&rt);
    let mut links = binder.listen(rt.alloc(), 0, 1)?;
    let port = links.port()?;
    let asking = thread::spawn(&rt, move || is_answered(&rt, rt.alloc(), port))?;
    let served = serves_all(&rt, rt.alloc(), &mut links);
    let answered = asking.join(&rt);
    binder.take_back(links);
    assert!(rt; served && answered && !binder.tells());
    Ok(())
}

#[test]
fn a_port_where_nobody_listens_is_a_fault(rt: HostRuntime) -> Result<(), Fail> {
    let listener = TcpListener::bind(&rt, SocketAddr::from((Ipv4Addr::LOCALHOST, 0)))?;
    let port = listener.local_addr()?.port();
    drop(listener);
    let (result, faults) = ask(&rt, rt.alloc(), port);
    assert!(rt; matches!(result, Err(AskingFault::NetFault)) && faults == 1);
    Ok(())
}
