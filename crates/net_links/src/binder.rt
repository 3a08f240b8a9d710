//! Makes links and pipes over sockets, and takes them back.

ghost use Rattle.std.specs.Prelude.{◌≡◌, false};

use crate::net_links::NetLinks;
use crate::pipe::NetPipe;
use outside::{BindFail, Binder, Handed};
use std::alloc::Global;
use std::io::ErrorKind;
use std::marker::Model;
use std::net::{Ipv4Addr, Net, OpenStream, SocketAddr, TcpStream};

/// Binds and dials ports of the loopback address, 127.0.0.1.
#[derive(Drop)]
pub struct NetBinder<'a, N: Net> {
    /// What binds and connects them.
    net: &'a N,
    /// How many ports couldn't be listened at or dialled, and how many links and pipes came back with a fault; it stands still at its type's end.
    faults: u64,
    /// What was handed out and has come back, for proofs alone.
    handed: Handed,
}

impl<'a, N: Net> Model for NetBinder<'a, N> {
    ghost use Rattle.net_links.specs.Bound.{BoundSoFar};

    ghost Value = { BoundSoFar };

    ghost view = { λ b. record { faults = b.faults; handed = b.handed } };
}

impl<'a, N: Net> NetBinder<'a, N> {
    /// A binder that has bound nothing.
    pub fn new(net: &'a N) -> Self
        ensures { result ≡ record { faults = 0; handed = record { out = 0; back = 0 } } }
    {
        NetBinder {
            net,
            faults: 0,
            handed: Handed::new(),
        }
    }

    /// How many ports couldn't be listened at or dialled, and how many links and pipes came back with a fault.
    pub fn faults(&self) -> u64
        ensures { result ≡ self.now.faults }
    {
        self.faults
    }

    /// Whether it tells of the links that came back: over sockets it doesn't.
    pub fn tells(&self) -> bool
        ensures { result ≡ false }
    {
        false
    }
}

impl<'a, N: Net> Binder for NetBinder<'a, N> {
    ghost use Rattle.std.specs.Prelude.{None};

    type L = NetLinks;

    type P = NetPipe<N::Stream>;

    ghost past = { λ _. None };

    ghost called = { λ _. None };

    ghost faults = { λ b. b.faults };

    ghost handed = { λ b. b.handed };

    fn listen(&mut self, alloc: Global, port: u16, accept: u32) -> Result<NetLinks, BindFail> {
        match NetLinks::new(self.net, alloc, port, accept) {
            Ok(links) => {
                self.handed.hand_out();
                Ok(links)
            }
            Err(error) if error.kind() == ErrorKind::OutOfMemory => Err(BindFail::NoMemory),
            Err(_) => {
                self.faults = self.faults.saturating_add(1);
                Err(BindFail::Failed)
            }
        }
    }

    fn take_back(&mut self, links: NetLinks) {
        let faults = links.net_faults();
        let_go(links);
        self.handed.take_back();
        if faults > 0 {
            self.faults = self.faults.saturating_add(1);
        }
    }

    fn dial(&mut self, _alloc: Global, port: u16) -> Result<NetPipe<N::Stream>, BindFail> {
        match TcpStream::connect(self.net, SocketAddr::from((Ipv4Addr::LOCALHOST, port))) {
            Ok(stream) => {
                let _ = stream.set_nodelay(true);
                self.handed.hand_out();
                Ok(NetPipe::over(stream, port))
            }
            Err(error) if error.kind() == ErrorKind::OutOfMemory => Err(BindFail::NoMemory),
            Err(_) => {
                self.faults = self.faults.saturating_add(1);
                Err(BindFail::Failed)
            }
        }
    }

    fn hang_up(&mut self, pipe: NetPipe<N::Stream>) {
        self.handed.take_back();
        if pipe.read_faults() > 0 || pipe.write_faults() > 0 {
            self.faults = self.faults.saturating_add(1);
        }
    }
}

/// Lets go of what came back.
fn let_go<T: Drop>(_back: T) {}
