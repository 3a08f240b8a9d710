//! The sockets of one poll: the one that listens, and those of the open links.

ghost use Rattle.std.specs.Prelude.{◌≡◌, ◌≢◌, ◌≤◌, ◌<◌, length};
ghost use Rattle.outside.specs.Faults.{MovesWithin};
ghost use Rattle.outside.specs.declared.answers.Taken.TheVariants.{End};
ghost use Rattle.net_links.specs.Watching.{TellsWithin, TellsAtOnce};

use crate::link::Readiness;
use crate::open_links::OpenLinks;
use crate::signal::{NetBell, Signal};
use limits::MOST_CONNECTIONS;
use mio::net::{TcpListener, TcpStream};
use mio::{Events, Interest, Poll, Token, Waker};
use outside::{Hint, Taken};
use std::alloc::{AllocError, Global};
use std::io;
use std::io::ErrorKind;
use std::net::{Ipv4Addr, Net, SocketAddr};
use std::sync::{Arc, Wait};
use std::time::Duration;

/// The token of the socket that listens. The other sockets have the numbers of their connections.
const LISTENER: Token = Token(usize::MAX);

/// The token of the waker.
const WAKER: Token = Token(usize::MAX - 1);

/// It is asked so often what is next before events are looked for where something else is to be told.
const OFTEN: u32 = 256;

/// So many connections that fail are passed over before something else is looked at.
const TRIES: u32 = 64;

/// What waits for events, and what they are about.
#[derive(Drop)]
pub(crate) struct Sockets {
    poll: Poll,
    events: Events,
    listener: TcpListener,
    /// Whether a connection may wait to be accepted.
    acceptable: bool,
    /// Whether the system had no room for one more connection; then it is asked again once one is closed.
    starved: bool,
    signal: Arc<Signal, Global>,
    links: OpenLinks,
    /// How often it was asked what is next since events were looked for.
    asked: u32,
    /// Whether a ring is told before the next connection is accepted: they come in turn.
    rings_first: bool,
}

impl Sockets {
    /// A socket that listens at this port of the loopback address, and no other. Room for all links is taken.
    pub(crate) fn new<N: Net>(net: &N, alloc: Global, port: u16) -> io::Result<Sockets> {
        let links = OpenLinks::new(alloc)?;
        let events = Events::with_capacity(alloc, MOST_CONNECTIONS + 2)?;
        let poll = Poll::new(net)?;
        let waker = Waker::new(poll.registry(), WAKER)?;
        let signal = Arc::new(alloc, Signal::new(waker))?;
        let mut listener = TcpListener::bind(net, SocketAddr::from((Ipv4Addr::LOCALHOST, port)))?;
        poll.registry()
            .register(&mut listener, LISTENER, Interest::READABLE)?;
        Ok(Sockets {
            poll,
            events,
            listener,
            acceptable: false,
            starved: false,
            signal,
            links,
            asked: 0,
            rings_first: false,
        })
    }

    /// The port that is listened at.
    pub(crate) fn port(&self) -> io::Result<u16> {
        Ok(self.listener.local_addr()?.port())
    }

    /// A bell that ends a wait.
    pub(crate) fn bell(&self) -> Result<NetBell, AllocError> {
        Ok(NetBell::new(Arc::try_clone(&self.signal)?))
    }

    /// Reads bytes of a link to the front of `into`.
    pub(crate) fn read(&mut self, c: u32, into: &mut [u8]) -> Taken
        ensures { MovesWithin (length into.new) result }
    {
        self.links.read(c, into)
    }

    /// Takes bytes off the front of `bytes`, to be sent on a link before the loop waits.
    pub(crate) fn write(&mut self, c: u32, bytes: &[u8]) -> Taken
        ensures within { MovesWithin (length bytes.now) result }
        ensures no_end { result ≢ End }
    {
        self.links.write(c, bytes)
    }

    /// Closes a link.
    pub(crate) fn close(&mut self, c: u32) {
        self.links.close(c);
        if self.starved {
            self.starved = false;
            self.acceptable = true;
        }
    }

    /// Tells what is next, and waits where nothing is; where a ring is owed and something was written, it looks for the ring a little before it sends that. A
    /// connection is accepted under this number, where there is one.
    pub(crate) fn watch<R: Wait>(
        &mut self,
        rt: &R,
        number: Option<u32>,
        owed: bool,
    ) -> io::Result<Hint>
        ensures { TellsWithin number result }
    {
        self.asked = self.asked.saturating_add(1);
        if self.asked > OFTEN || self.links.is_sated() {
            self.refresh(Some(Duration::ZERO))?;
            if let Some(hint) = self.look_aside(number)? {
                return Ok(hint);
            }
        }
        for _ in rt.forever() {
            if let Some(hint) = self.look(number)? {
                return Ok(hint);
            }
            if !owed || !self.links.is_unsent() || !self.signal.comes() {
                self.pause(number.is_some())?;
            }
        }
        unreachable!()
    }

    /// Tells what is next, where something is: the links that are known to be ready come first.
    fn look(&mut self, number: Option<u32>) -> io::Result<Option<Hint>>
        ensures { TellsAtOnce number result }
    {
        match self.links.tell() {
            Some((c, Readiness::Readable)) => Ok(Some(Hint::Readable(c))),
            Some((c, Readiness::Writable)) => Ok(Some(Hint::Writable(c))),
            None => self.look_aside(number),
        }
    }

    /// Tells the same of what no open link is ready for: a connection that waits to be accepted, and a ring.
    fn look_aside(&mut self, number: Option<u32>) -> io::Result<Option<Hint>>
        ensures { TellsAtOnce number result }
    {
        if self.rings_first && self.signal.take() {
            self.rings_first = false;
            return Ok(Some(Hint::Woken));
        }
        if let Some(c) = number
            && self.accept(c)?
        {
            self.rings_first = true;
            return Ok(Some(Hint::Opened(c)));
        }
        if self.signal.take() {
            return Ok(Some(Hint::Woken));
        }
        Ok(None)
    }

    /// Sends what was written, and waits for events where nothing else is to do.
    fn pause(&mut self, accepts: bool) -> io::Result<()> {
        self.links.send_all();
        if self.links.is_ready() || accepts && self.acceptable {
            return Ok(());
        }
        let may_sleep = self.signal.may_sleep();
        let refreshed = if may_sleep {
            self.refresh(None)
        } else {
            Ok(())
        };
        self.signal.wake_up();
        refreshed
    }

    /// Sends what was written, and looks for events, for which it waits so long, or as long as it takes.
    fn refresh(&mut self, timeout: Option<Duration>) -> io::Result<()> {
        self.links.send_all();
        self.asked = 0;
        self.links.renew();
        self.poll.poll(&mut self.events, timeout)?;
        self.note_events();
        Ok(())
    }

    /// Notes what the events of the last wait say.
    fn note_events(&mut self) {
        for event in &self.events {
            match event.token() {
                LISTENER => self.acceptable = true,
                WAKER => {}
                Token(number) => {
                    if let Ok(c) = u32::try_from(number) {
                        self.links.note(c, event);
                    }
                }
            }
        }
    }

    /// Accepts a connection under this number, and says whether one waited.
    fn accept(&mut self, c: u32) -> io::Result<bool> {
        for _ in 0..TRIES {
            if !self.acceptable {
                return Ok(false);
            }
            if self.accept_next(c)? {
                return Ok(true);
            }
        }
        Ok(false)
    }

    /// Accepts the connection that waits first under this number, and says whether it could be taken in.
    fn accept_next(&mut self, c: u32) -> io::Result<bool> {
        match self.listener.accept() {
            Ok((stream, _)) => self.admit(c, stream),
            Err(error) => self.pass_over(error),
        }
    }

    /// No connection was accepted. That of one connection is passed over.
    fn pass_over(&mut self, error: io::Error) -> io::Result<bool> {
        match error.kind() {
            ErrorKind::ConnectionAborted
            | ErrorKind::ConnectionReset
            | ErrorKind::Interrupted
            | ErrorKind::HostUnreachable
            | ErrorKind::NetworkUnreachable
            | ErrorKind::NetworkDown => return Ok(false),
            ErrorKind::WouldBlock => self.acceptable = false,
            ErrorKind::OutOfMemory => return Err(error),
            _ => {
                if self.links.is_empty() {
                    return Err(error);
                }
                self.acceptable = false;
                self.starved = true;
            }
        }
        Ok(false)
    }

    /// Takes a connection in, and says whether it could be.
    fn admit(&mut self, c: u32, mut stream: TcpStream) -> io::Result<bool> {
        let _ = stream.set_nodelay(true);
        let interest = Interest::READABLE | Interest::WRITABLE;
        let token = Token(c as usize);
        match self.poll.registry().register(&mut stream, token, interest) {
            Ok(()) => {
                self.links.add(c, stream)?;
                Ok(true)
            }
            Err(error) if error.kind() == ErrorKind::OutOfMemory => Err(error),
            Err(_) => Ok(false),
        }
    }
}
