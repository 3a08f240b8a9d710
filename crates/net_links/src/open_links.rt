//! The links that are open, with the pool of their bytes, and which of them are to be told of or sent from.

ghost use Rattle.std.specs.Prelude.{◌≡◌, ◌≢◌, ◌≤◌, ◌<◌, length, vec_len, IfSome};
ghost use Rattle.outside.specs.Faults.{MovesWithin};
ghost use Rattle.outside.specs.declared.answers.Taken.TheVariants.{End};

use crate::link::{Readiness, SocketLink};
use crate::pool::Pool;
use limits::{MOST_CONNECTIONS, MOST_READ};
use mio::event::Event;
use mio::net::TcpStream;
use outside::Taken;
use std::alloc::{AllocError, Global};
use std::collections::VecDeque;
use std::mem;

/// A block for the input and one for the output of each link.
const BLOCKS: usize = 2 * MOST_CONNECTIONS;

/// So many links have output that waits to be sent, at most. More would save no call of the system, since each link has its own, and take a block each.
const MOST_UNSENT: usize = 128;

/// The open links, by rising number.
#[derive(Drop)]
pub(crate) struct OpenLinks {
    alloc: Global,
    links: Vec<SocketLink>,
    /// By the lowest bits of a link's number, the place at which the last one of these was found.
    found: Vec<usize>,
    pool: Pool,
    /// The numbers of those of which something is to be told, each once; there is room for all.
    ready: VecDeque<u32>,
    /// The numbers of those whose output is to be sent before the loop waits, each once; there is room for all.
    unsent: Vec<u32>,
    /// How many bytes were read and written since events were looked for.
    moved: usize,
}

impl OpenLinks {
    /// None is open. Room for all is taken.
    pub(crate) fn new(alloc: Global) -> Result<OpenLinks, AllocError> {
        Ok(OpenLinks {
            alloc,
            links: Vec::with_capacity(alloc, MOST_CONNECTIONS)?,
            found: vec![in alloc; 0usize; MOST_CONNECTIONS]?,
            pool: Pool::new(alloc, BLOCKS)?,
            ready: VecDeque::with_capacity(alloc, MOST_CONNECTIONS)?,
            unsent: Vec::with_capacity(alloc, MOST_CONNECTIONS)?,
            moved: 0,
        })
    }

    /// Whether none is open.
    pub(crate) fn is_empty(&self) -> bool {
        self.links.is_empty()
    }

    /// Whether something is to be told of a link.
    pub(crate) fn is_ready(&self) -> bool {
        !self.ready.is_empty()
    }

    /// Whether output waits to be sent.
    pub(crate) fn is_unsent(&self) -> bool {
        !self.unsent.is_empty()
    }

    /// The place of a link. One that stands where it was found last is found without a search.
    fn place_of(&mut self, c: u32) -> Option<usize>
        ensures { IfSome result (λ at. at < vec_len self.new.links) }
    {
        if let Some(&at) = self.found.get(slot_of(c))
            && at < self.links.len()
            && self.links[at].number() == c
        {
            return Some(at);
        }
        self.search(c)
    }

    /// The place of a link, by a search.
    fn search(&mut self, c: u32) -> Option<usize>
        ensures { IfSome result (λ at. at < vec_len self.new.links) }
    {
        let links = self.links.as_slice();
        let at = links.binary_search_by_key(&c, |link| link.number()).ok()?;
        if let Some(found) = self.found.get_mut(slot_of(c)) {
            *found = at;
        }
        Some(at)
    }

    /// One more is open, whose number is above all others.
    pub(crate) fn add(&mut self, c: u32, stream: TcpStream) -> Result<(), AllocError> {
        self.links.push(SocketLink::new(c, stream))?;
        Ok(())
    }

    /// Reads bytes of a link to the front of `into`.
    pub(crate) fn read(&mut self, c: u32, into: &mut [u8]) -> Taken
        ensures { MovesWithin (length into.new) result }
    {
        let Some(at) = self.place_of(c) else {
            return Taken::NotYet;
        };
        let link = &mut self.links[at];
        if self.moved >= MOST_READ {
            link.put_off();
            list(&mut self.ready, link);
            return Taken::NotYet;
        }
        let taken = link.read(&mut self.pool, into);
        if let Taken::Bytes(count) = taken {
            self.moved = self.moved.saturating_add(count);
        }
        taken
    }

    /// Whether nothing is read before events are looked for.
    pub(crate) fn is_sated(&self) -> bool {
        self.moved >= MOST_READ
    }

    /// Events were looked for.
    pub(crate) fn renew(&mut self) {
        self.moved = 0;
    }

    /// Takes bytes off the front of `bytes`, to be sent on a link before the loop waits, or at once where the link can't be noted, or too many are.
    pub(crate) fn write(&mut self, c: u32, bytes: &[u8]) -> Taken
        ensures within { MovesWithin (length bytes.now) result }
        ensures no_end { result ≢ End }
    {
        let Some(at) = self.place_of(c) else {
            return Taken::NotYet;
        };
        let link = &mut self.links[at];
        let taken = link.write(&mut self.pool, bytes);
        if let Taken::Bytes(count) = taken {
            self.moved = self.moved.saturating_add(count);
        }
        note_unsent(&mut self.unsent, link);
        if link.has_output() && !link.unsent {
            link.flush(&mut self.pool);
            list(&mut self.ready, link);
        }
        if self.unsent.len() >= MOST_UNSENT {
            self.send_all();
        }
        taken
    }

    /// A link isn't open any more. What the socket takes at once of its output is sent.
    pub(crate) fn close(&mut self, c: u32) {
        let Some(at) = self.place_of(c) else {
            return;
        };
        let link = self.links.remove(at);
        if link.listed {
            self.ready.retain(|number| *number != c);
        }
        if link.unsent {
            self.unsent.retain(|number| *number != c);
        }
        link.close(&mut self.pool);
    }

    /// Sends the output that waits, as far as the sockets take it at once.
    pub(crate) fn send_all(&mut self) {
        let mut unsent = mem::replace(&mut self.unsent, Vec::new(self.alloc));
        for c in unsent.iter() {
            self.send_from(*c);
        }
        unsent.clear();
        self.unsent = unsent;
    }

    /// Sends the output of a link that waits.
    fn send_from(&mut self, c: u32) {
        let Some(at) = self.place_of(c) else {
            return;
        };
        let link = &mut self.links[at];
        link.unsent = false;
        if link.has_output() {
            link.flush(&mut self.pool);
        }
        list(&mut self.ready, link);
    }

    /// An event came for a link.
    pub(crate) fn note(&mut self, c: u32, event: &Event) {
        let Some(at) = self.place_of(c) else {
            return;
        };
        let link = &mut self.links[at];
        let done = event.is_read_closed() || event.is_error();
        if event.is_readable() || done {
            link.note_readable(done);
        }
        if event.is_writable() || event.is_write_closed() {
            link.note_writable(&mut self.pool);
        }
        list(&mut self.ready, link);
    }

    /// What is to be told next, and of which link.
    pub(crate) fn tell(&mut self) -> Option<(u32, Readiness)> {
        for _ in 0..self.ready.len() {
            let c = self.ready.pop_front()?;
            if let Some(readiness) = self.tell_of(c) {
                return Some((c, readiness));
            }
        }
        None
    }

    /// What is to be told of a link next. Where more is left, it is listed again.
    fn tell_of(&mut self, c: u32) -> Option<Readiness> {
        let at = self.place_of(c)?;
        let link = &mut self.links[at];
        let told = link.tell();
        link.listed = false;
        list(&mut self.ready, link);
        told
    }
}

/// Where it is kept at which place a link was found.
fn slot_of(c: u32) -> usize {
    c as usize % MOST_CONNECTIONS
}

/// Lists a link of which something is to be told, where it isn't listed yet. It takes no memory: there is room for each link once.
fn list(ready: &mut VecDeque<u32>, link: &mut SocketLink) {
    if link.is_due() && !link.listed && ready.len() < ready.capacity() {
        ready.push_back_reserved(link.number());
        link.listed = true;
    }
}

/// Notes a link whose output is to be sent, where it isn't noted yet. It takes no memory: there is room for each link once.
fn note_unsent(unsent: &mut Vec<u32>, link: &mut SocketLink) {
    if link.has_output() && !link.unsent && unsent.len() < unsent.capacity() {
        unsent.push_reserved(link.number());
        link.unsent = true;
    }
}
