//! What the links tell of what has happened on them.

ghost use Rattle.std.specs.Prelude.{◌≡◌, ◌^◌, ◌<◌, ◌≤◌, true, false, length, IfOk, OnOk, OnErr, if◌then◌else◌};
ghost use Rattle.streams.specs.Memory.{is_listed};
ghost use Rattle.net_links.specs.Account.{NumbersNext, fresh_account, may_open, is_spent, after_opening, after_closing, after_failing, after_net_fault, after_over};

use limits::MOST_CONNECTIONS;
use std::alloc::{AllocError, Global};
use std::marker::Model;

/// The numbers of connections, and counts of faults.
#[derive(Drop)]
pub(crate) struct Account {
    port: u16,
    /// The most connections that are opened in all.
    accept: u32,
    /// How many were opened; the next one has this number.
    opened: u32,
    /// The numbers of those that are open.
    numbers: Vec<u32>,
    /// Whether it was said that none is open and none will be.
    over: bool,
    /// The number of the connection of each read or write that failed.
    failed: Vec<u32>,
    /// How many of these there is room for: those at the last opening, and one for each connection that was open then.
    most_failed: usize,
    /// How often nothing could be told of what is next; it stands still at its type's end.
    net_faults: u64,
}

impl Model for Account {
    ghost use Rattle.std.specs.Prelude.{◌≤◌};
    ghost use Rattle.std.specs.Vec.{vec_capacity};
    ghost use Rattle.net_links.specs.Account.{LinksAccount, most_connections};

    ghost Value = { LinksAccount };

    ghost view = { λ a. record {
      listening = record { port = a.port; accept = a.accept };
      opened = a.opened;
      numbers = a.numbers.items;
      over = a.over;
      failed = a.failed.items;
      most_failed = a.most_failed;
      net_faults = a.net_faults;
    } };

    ghost invariant = { λ a. (most_connections ≤ vec_capacity a.numbers) × (a.most_failed ≤ vec_capacity a.failed) };
}

impl Account {
    /// Nothing has happened.
    pub(crate) fn new(alloc: Global, port: u16, accept: u32) -> Result<Account, AllocError>
        ensures { IfOk result (λ account. account ≡ fresh_account (record { port = port; accept = accept })) }
    {
        Ok(Account {
            port,
            accept,
            opened: 0,
            numbers: Vec::with_capacity(alloc, MOST_CONNECTIONS)?,
            over: false,
            failed: Vec::new(alloc),
            most_failed: 0,
            net_faults: 0,
        })
    }

    /// How often nothing could be told of what is next.
    pub(crate) fn net_faults(&self) -> u64
        ensures { result ≡ self.now.net_faults }
    {
        self.net_faults
    }

    /// Whether a connection is open.
    pub(crate) fn is_open(&self, c: u32) -> bool
        ensures { result ≡ is_listed self.now.numbers c }
    {
        self.numbers.as_slice().contains(&c)
    }

    /// Whether none is open and none will be.
    pub(crate) fn is_spent(&self) -> bool
        ensures { result ≡ is_spent self.now }
    {
        self.opened == self.accept && self.numbers.is_empty()
    }

    /// The number of the next connection, where there is room for one, and one more may be opened.
    pub(crate) fn next_number(&self, room: bool) -> Option<u32>
        ensures { NumbersNext room self.now result }
    {
        if room
            && !self.over
            && self.opened < self.accept
            && self.numbers.len() < MOST_CONNECTIONS
        {
            return Some(self.opened);
        }
        None
    }

    /// Notes that the next connection was opened, where there is memory for a fault of each one that is open.
    pub(crate) fn open(&mut self) -> Result<(), AllocError>
        requires { may_open self.old ≡ true }
        ensures account { OnOk result (self.new ≡ after_opening self.old) }
        ensures few { OnOk result (self.new.opened < 2 ^ 32) }
        ensures same { OnErr result (self.new ≡ self.old) }
    {
        let more = self.numbers.len() + 1;
        self.failed.reserve(more)?;
        self.most_failed = self.failed.len() + more;
        self.numbers.push_reserved(self.opened);
        self.opened += 1;
        Ok(())
    }

    /// Notes that a connection was closed; takes no memory.
    pub(crate) fn close(&mut self, c: u32)
        ensures { self.new ≡ after_closing c self.old }
    {
        self.numbers.retain(|number| *number != c);
    }

    /// Counts that a read or a write of a connection failed, where there is room for it, and answers whether there is; takes no memory.
    pub(crate) fn fail(&mut self, c: u32) -> bool
        ensures account { self.new ≡ (if result then after_failing c self.old else self.old) }
        ensures full { result ≡ false → self.old.most_failed ≤ length self.old.failed }
    {
        if self.failed.len() < self.most_failed {
            self.failed.push_reserved(c);
            return true;
        }
        false
    }

    /// Nothing could be told of what is next.
    pub(crate) fn net_fault(&mut self)
        ensures account { self.new ≡ after_net_fault self.old }
        ensures later { self.old.net_faults ≤ self.new.net_faults }
    {
        self.net_faults = self.net_faults.saturating_add(1);
    }

    /// It was said that all is over.
    pub(crate) fn say_over(&mut self)
        ensures { self.new ≡ after_over self.old }
    {
        self.over = true;
    }
}
