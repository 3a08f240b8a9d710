//! The connections of a script, by number.

ghost use Rattle.std.specs.Prelude.{◌≡◌, ◌<◌, true, Some, length, take, IfOk, OnOk, OnErr};
ghost use Rattle.std.specs.List.{list_any};
ghost use Rattle.script_links.specs.ServedScript.{link_at, with_link, is_open_at, is_coming, is_fit_for_end, is_sound_link};
ghost use Rattle.script_links.specs.Plain.{oldest_of, with_arrival, with_finish, with_opening, with_closing, with_end, with_fault, with_bytes_read, with_rule_used, with_ruled_fault, with_written, taken_by_read, taken_by_rules, IsCopyOfFront, has_unread, is_open_link};
ghost use Rattle.script_links.specs.Kept.{plain_link_finish, plain_link, plain_links};

use crate::link::{LinkInputEnd, LinkStage, ScriptConn};
use outside::Taken;
use std::alloc::{AllocError, Global};

/// The connections of a script, by number.
#[derive(Drop)]
pub struct Connections {
    /// The connections.
    pub items: Vec<ScriptConn>,
}

impl Connections {
    /// Whether connection `c` is open.
    pub fn is_open(&self, c: u32) -> bool
        ensures { result ≡ is_open_at (plain_links self.now.items.items) c }
    {
        let c = c as usize;
        if c < self.items.len() {
            return self.items[c].is_open();
        }
        false
    }

    /// Whether connection `c` isn't opened yet.
    pub fn is_coming(&self, c: usize) -> bool
        ensures { result ≡ is_coming (link_at (plain_links self.now.items.items) c).stage }
    {
        if c < self.items.len() {
            return self.items[c].is_coming();
        }
        false
    }

    /// Whether no end and no fault of an open connection was marked.
    pub fn is_fit_for_end(&self, c: usize) -> bool
        requires { c < length self.now.items.items }
        ensures { result ≡ is_fit_for_end (link_at (plain_links self.now.items.items) c).stage }
    {
        match self.items[c].stage {
            LinkStage::Coming => false,
            LinkStage::Open => true,
            LinkStage::Ended => false,
            LinkStage::Closed => false,
        }
    }

    /// Whether some connection is open.
    pub fn some_open(&self) -> bool
        ensures { result ≡ list_any (λ link. is_open_link (plain_link link)) self.now.items.items }
    {
        self.items.iter().any(|link| link.is_open())
    }

    /// Whether some open connection has an unread piece that has arrived.
    pub fn some_unread(&self) -> bool
        ensures { result ≡ list_any has_unread (plain_links self.now.items.items) }
    {
        self.any_unread()
    }

    /// Tells the same, said of what is in memory.
    fn any_unread(&self) -> bool
        ensures { result ≡ list_any (λ link. has_unread (plain_link link)) self.now.items.items }
    {
        self.items.iter().any(|link| link.has_unread())
    }

    /// What a read of connection `c` comes to for which so much is lent.
    pub fn answer_read(&self, c: usize, lent: usize) -> Taken
        requires there { c < length self.now.items.items }
        requires sound { is_sound_link (link_at (plain_links self.now.items.items) c) ≡ true }
        ensures { result ≡ taken_by_read lent (link_at (plain_links self.now.items.items) c) }
    {
        self.items[c].answer_read(lent)
    }

    /// What a write of so many bytes on connection `c` comes to.
    pub fn answer_write(&self, c: usize, offered: usize) -> Taken
        requires { c < length self.now.items.items }
        ensures { result ≡ taken_by_rules offered (link_at (plain_links self.now.items.items) c).rules }
    {
        self.items[c].answer_write(offered)
    }

    /// A copy of the first bytes of the oldest piece of connection `c`.
    pub fn copy_oldest(&self, alloc: Global, c: usize, count: usize) -> Result<Vec<u8>, AllocError>
        requires there { c < length self.now.items.items }
        requires sound { is_sound_link (link_at (plain_links self.now.items.items) c) ≡ true }
        ensures { IfOk result (λ bytes. IsCopyOfFront count bytes.items (oldest_of (link_at (plain_links self.now.items.items) c))) }
    {
        match self.items[c].oldest() {
            Some(piece) => Vec::from_slice(alloc, piece.split_at(count.min(piece.len())).0),
            None => Err(AllocError),
        }
    }

    /// What was written on connection `c`.
    pub fn written(&self, c: u32) -> &[u8]
        ensures { result.now ≡ (link_at (plain_links self.now.items.items) c).written }
    {
        let c = c as usize;
        if c < self.items.len() {
            return self.items[c].written.as_slice();
        }
        &[]
    }

    /// Connection `c` is opened.
    pub fn open(&mut self, c: usize)
        requires { c < length self.old.items.items }
        ensures { plain_links self.new.items.items ≡ with_link c with_opening (plain_links self.old.items.items) }
    {
        self.items[c].open();
    }

    /// Connection `c` is closed.
    pub fn close(&mut self, c: usize)
        requires { c < length self.old.items.items }
        ensures { plain_links self.new.items.items ≡ with_link c with_closing (plain_links self.old.items.items) }
    {
        self.items[c].close();
    }

    /// A piece arrives on connection `c`.
    pub fn arrive(&mut self, c: usize)
        requires { c < length self.old.items.items }
        ensures { plain_links self.new.items.items ≡ with_link c with_arrival (plain_links self.old.items.items) }
    {
        self.items[c].arrive();
    }

    /// This comes after all pieces of connection `c`.
    pub fn finish(&mut self, c: usize, finish: LinkInputEnd)
        requires { c < length self.old.items.items }
        ensures { plain_links self.new.items.items ≡ with_link c (with_finish (plain_link_finish finish)) (plain_links self.old.items.items) }
    {
        self.items[c].finish(finish);
    }

    /// The end of connection `c` was marked.
    pub fn end(&mut self, c: usize)
        requires { c < length self.old.items.items }
        ensures { plain_links self.new.items.items ≡ with_link c with_end (plain_links self.old.items.items) }
    {
        self.items[c].end();
    }

    /// A fault of connection `c` was marked.
    pub fn fail(&mut self, c: usize)
        requires { c < length self.old.items.items }
        ensures { plain_links self.new.items.items ≡ with_link c with_fault (plain_links self.old.items.items) }
    {
        self.items[c].fail();
    }

    /// A fault of connection `c` was marked, which used up a rule.
    pub fn fail_by_rule(&mut self, c: usize)
        requires { c < length self.old.items.items }
        ensures { plain_links self.new.items.items ≡ with_link c with_ruled_fault (plain_links self.old.items.items) }
    {
        self.items[c].fail_by_rule();
    }

    /// So many bytes of the oldest piece of connection `c` were read.
    pub fn read(&mut self, c: usize, count: usize)
        requires there { c < length self.old.items.items }
        requires sound { is_sound_link (link_at (plain_links self.old.items.items) c) ≡ true }
        requires arrived { 0 < (link_at (plain_links self.old.items.items) c).arrived }
        ensures { plain_links self.new.items.items ≡ with_link c (with_bytes_read count) (plain_links self.old.items.items) }
    {
        self.items[c].read(count);
    }

    /// The next rule of connection `c` is used up.
    pub fn use_rule(&mut self, c: usize)
        requires { c < length self.old.items.items }
        ensures { plain_links self.new.items.items ≡ with_link c with_rule_used (plain_links self.old.items.items) }
    {
        self.items[c].use_rule();
    }

    /// These bytes were written on connection `c`.
    pub fn write(&mut self, c: usize, bytes: &[u8]) -> Result<(), AllocError>
        requires { c < length self.old.items.items }
        ensures ok { OnOk result (plain_links self.new.items.items ≡ with_link c (with_written bytes.now) (plain_links self.old.items.items)) }
        ensures err { OnErr result (plain_links self.new.items.items ≡ plain_links self.old.items.items) }
    {
        self.items[c].write(bytes)
    }
}
