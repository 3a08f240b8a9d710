//! Links over the sockets of one poll.

ghost use Rattle.std.specs.Prelude.{◌≡◌, true, IfOk};
ghost use Rattle.streams.specs.Memory.{is_listed};
ghost use Rattle.net_links.specs.Account.{fresh_account, may_open};
ghost use Rattle.net_links.specs.Settling.{SettlesFailure};
ghost use Rattle.net_links.specs.Watching.{AcceptsOne};

use crate::account::Account;
use crate::signal::NetBell;
use crate::sockets::Sockets;
use outside::{Ask, Hint, Links, Taken};
use std::alloc::{AllocError, Global};
use std::io;
use std::marker::Model;
use std::net::Net;
use std::sync::Wait;
use streams::Failed;

/// Connections that are accepted at one port of the loopback address.
///
/// Bytes are read ahead, and bytes that are written are gathered and sent before `next` waits, so that a mark of a write says that
/// its bytes were taken. Where sending fails, the next read or write of that connection says so. Reading and writing take no memory:
/// room for a fault of each connection is taken when it is opened. The end of an input is told
/// once all that was gathered is sent, and `close` sends what the socket takes at once.
pub struct NetLinks {
    account: Account,
    sockets: Sockets,
}

impl Model for NetLinks {
    ghost use Rattle.net_links.specs.Account.{LinksAccount};

    ghost Value = { LinksAccount };

    ghost view = { λ l. l.account };
}

// Written out, so that crates above needn't prove it again.
impl Drop for NetLinks {
    fn drop(self) {
        let NetLinks { account, sockets } = self;
        drop(account);
        drop(sockets);
    }
}

impl NetLinks {
    /// Links that listen at this port, and open at most `accept` connections. Room for as many as are open at once is taken.
    pub(crate) fn new<N: Net>(
        net: &N,
        alloc: Global,
        port: u16,
        accept: u32,
    ) -> io::Result<NetLinks>
        ensures { IfOk result (λ links. links ≡ fresh_account (record { port = port; accept = accept })) }
    {
        Ok(NetLinks {
            account: Account::new(alloc, port, accept)?,
            sockets: Sockets::new(net, alloc, port)?,
        })
    }

    /// The port that is listened at: where links were to listen at port 0, one that the system picked.
    pub fn port(&self) -> io::Result<u16> {
        self.sockets.port()
    }

    /// Whether a connection is open.
    pub fn is_open(&self, c: u32) -> bool
        ensures { result ≡ is_listed self.now.numbers c }
    {
        self.account.is_open(c)
    }

    /// How often nothing could be told of what is next.
    pub(crate) fn net_faults(&self) -> u64
        ensures { result ≡ self.now.net_faults }
    {
        self.account.net_faults()
    }

    /// The answer of a read or a write, whose fault is counted.
    fn settled(&mut self, c: u32, taken: Taken) -> Taken
        ensures { SettlesFailure c self.old self.new taken result }
    {
        match taken {
            Taken::Failed => {
                if self.account.fail(c) {
                    return Taken::Failed;
                }
                Taken::NotYet
            }
            other => other,
        }
    }

    /// Takes in a connection that the sockets have accepted. Where there is no memory for its faults, it is closed again, and a fault of the net is counted.
    fn take_in(&mut self, c: u32) -> Result<Hint, Failed>
        requires { may_open self.old ≡ true }
        ensures { AcceptsOne c self.old self.new result }
    {
        match self.account.open() {
            Ok(()) => Ok(Hint::Opened(c)),
            Err(_) => {
                self.sockets.close(c);
                self.account.net_fault();
                Err(Failed)
            }
        }
    }
}

impl Links for NetLinks {
    ghost use Rattle.net_links.specs.Account.{state_of};

    type Bell = NetBell;

    ghost Plan = { Unit {0} };

    ghost plan = { λ _. tt };

    ghost state = { state_of };

    fn bell(&self, _alloc: Global) -> Result<NetBell, AllocError> {
        self.sockets.bell()
    }

    fn next<R: Wait>(&mut self, rt: &R, ask: Ask) -> Result<Hint, Failed> {
        if self.account.is_spent() {
            self.account.say_over();
            return Ok(Hint::Over);
        }
        let number = self.account.next_number(ask.room);
        match self.sockets.watch(rt, number, !ask.idle) {
            Ok(Hint::Opened(c)) => self.take_in(c),
            Ok(Hint::Readable(c)) => Ok(Hint::Readable(c)),
            Ok(Hint::Writable(c)) => Ok(Hint::Writable(c)),
            Ok(Hint::Woken) => Ok(Hint::Woken),
            Ok(Hint::Over) => unreachable!(),
            Err(_) => {
                self.account.net_fault();
                Err(Failed)
            }
        }
    }

    fn read(&mut self, c: u32, into: &mut [u8]) -> Taken {
        let taken = self.sockets.read(c, into);
        self.settled(c, taken)
    }

    fn write(&mut self, c: u32, bytes: &[u8]) -> Taken {
        let taken = self.sockets.write(c, bytes);
        self.settled(c, taken)
    }

    fn close(&mut self, c: u32) {
        self.sockets.close(c);
        self.account.close(c);
    }
}
