//! One connection of a script.

ghost use Rattle.std.specs.Prelude.{◌≡◌, ◌<◌, ◌≤◌, true, None, Some, length, MatchOption, OnOk, OnErr};
ghost use Rattle.script_links.specs.ServedScript.{is_open_stage, is_coming, is_sound_link};
ghost use Rattle.script_links.specs.Plain.{oldest_of, shown_finish, with_arrival, with_finish, with_opening, with_closing, with_end, with_fault, with_bytes_read, with_piece_passed, with_rule_used, with_ruled_fault, with_written, taken_by_read, taken_by_rules, has_unread};
ghost use Rattle.script_links.specs.Kept.{plain_link_finish, plain_link};

use limits::MOST_READ;
use outside::Taken;
use script_text::WriteRule;
use std::alloc::AllocError;
use streams::Bytes;

/// How a connection stands.
#[derive(Clone, Copy)]
pub enum LinkStage {
    /// It isn't opened yet.
    Coming,
    /// It is open.
    Open,
    /// It is open, and its end or a fault was marked.
    Ended,
    /// It is closed.
    Closed,
}

/// What comes after all pieces of a connection.
#[derive(Clone, Copy)]
pub enum LinkInputEnd {
    /// Its input ends.
    Ends,
    /// A read fails.
    Fails,
}

/// A connection of a script.
#[derive(Drop)]
pub struct ScriptConn {
    /// How it stands.
    pub stage: LinkStage,
    /// All pieces that the script brings, in order; none is empty.
    pub pieces: Vec<Bytes>,
    /// How many of them were read whole.
    pub passed: usize,
    /// How many bytes of the next one were read.
    pub offset: usize,
    /// How many of those that weren't read whole have arrived.
    pub arrived: usize,
    /// What comes after them, once its line was done.
    pub finish: Option<LinkInputEnd>,
    /// All rules, in order.
    pub rules: Vec<WriteRule>,
    /// How many of them are used up.
    pub used: usize,
    /// How many faults were counted; it stands still at its type's end.
    pub faults: u64,
    /// What was written to it.
    pub written: Vec<u8>,
}

impl ScriptConn {
    /// Whether it is open.
    pub fn is_open(&self) -> bool
        ensures { result ≡ is_open_stage (plain_link self.now).stage }
    {
        match self.stage {
            LinkStage::Coming => false,
            LinkStage::Open => true,
            LinkStage::Ended => true,
            LinkStage::Closed => false,
        }
    }

    /// Whether it isn't opened yet.
    pub fn is_coming(&self) -> bool
        ensures { result ≡ is_coming (plain_link self.now).stage }
    {
        match self.stage {
            LinkStage::Coming => true,
            LinkStage::Open => false,
            LinkStage::Ended => false,
            LinkStage::Closed => false,
        }
    }

    /// Whether it is open and has an unread piece that has arrived.
    pub fn has_unread(&self) -> bool
        ensures { result ≡ has_unread (plain_link self.now) }
    {
        self.is_open() && 0 < self.arrived
    }

    /// What is left of the oldest piece that has arrived.
    pub fn oldest(&self) -> Option<&[u8]>
        requires sound { is_sound_link (plain_link self.now) ≡ true }
        ensures { MatchOption result (oldest_of (plain_link self.now) ≡ None) (λ piece. oldest_of (plain_link self.now) ≡ Some piece.now) }
    {
        if self.arrived == 0 {
            return None;
        }
        match self.pieces.get(self.passed) {
            Some(piece) => Some(piece.as_slice().split_at(self.offset).1),
            None => None,
        }
    }

    /// How many pieces weren't read whole.
    #[tactic(auto, using(crate::proofs::Passing::pieces_left))]
    fn left(&self) -> usize
        ensures { result ≡ length (plain_link self.now).pieces }
    {
        self.pieces.len().saturating_sub(self.passed)
    }

    /// What a read comes to for which so much is lent.
    pub fn answer_read(&self, lent: usize) -> Taken
        requires sound { is_sound_link (plain_link self.now) ≡ true }
        ensures { result ≡ taken_by_read lent (plain_link self.now) }
    {
        if let Some(piece) = self.oldest() {
            return Taken::Bytes(lent.min(MOST_READ).min(piece.len()));
        }
        if self.arrived < self.left() {
            return Taken::NotYet;
        }
        match self.finish {
            None => Taken::NotYet,
            Some(LinkInputEnd::Ends) => Taken::End,
            Some(LinkInputEnd::Fails) => Taken::Failed,
        }
    }

    /// What a write of so many bytes comes to.
    pub fn answer_write(&self, offered: usize) -> Taken
        ensures { result ≡ taken_by_rules offered (plain_link self.now).rules }
    {
        match self.rules.get(self.used) {
            None => Taken::Bytes(offered),
            Some(WriteRule::Takes(count)) => Taken::Bytes((*count as usize).min(offered)),
            Some(WriteRule::Block) => Taken::NotYet,
            Some(WriteRule::Fails) => Taken::Failed,
        }
    }

    /// It is opened.
    pub fn open(&mut self)
        ensures { plain_link self.new ≡ with_opening (plain_link self.old) }
    {
        self.stage = LinkStage::Open;
    }

    /// It is closed.
    pub fn close(&mut self)
        ensures { plain_link self.new ≡ with_closing (plain_link self.old) }
    {
        self.stage = LinkStage::Closed;
    }

    /// The next piece arrives.
    pub fn arrive(&mut self)
        ensures { plain_link self.new ≡ with_arrival (plain_link self.old) }
    {
        if self.arrived < self.left() {
            self.arrived += 1;
        }
    }

    /// This comes after all pieces, where nothing is known to.
    pub fn finish(&mut self, finish: LinkInputEnd)
        ensures { plain_link self.new ≡ with_finish (plain_link_finish finish) (plain_link self.old) }
    {
        if self.finish.is_none() {
            self.finish = Some(finish);
        }
    }

    /// Its end was marked.
    pub fn end(&mut self)
        ensures { plain_link self.new ≡ with_end (plain_link self.old) }
    {
        self.stage = LinkStage::Ended;
    }

    /// A fault was marked.
    pub fn fail(&mut self)
        ensures { plain_link self.new ≡ with_fault (plain_link self.old) }
    {
        self.stage = LinkStage::Ended;
        self.faults = self.faults.saturating_add(1);
    }

    /// A fault was marked, which used up a rule.
    pub fn fail_by_rule(&mut self)
        ensures { plain_link self.new ≡ with_ruled_fault (plain_link self.old) }
    {
        self.use_rule();
        self.fail();
    }

    /// So many bytes of the oldest piece were read.
    pub fn read(&mut self, count: usize)
        requires sound { is_sound_link (plain_link self.old) ≡ true }
        requires arrived { 0 < self.old.arrived }
        ensures { plain_link self.new ≡ with_bytes_read count (plain_link self.old) }
    {
        let Some(piece) = self.pieces.get(self.passed) else {
            return;
        };
        if count < piece.as_slice().len() - self.offset {
            self.offset += count;
            return;
        }
        self.pass_piece();
    }

    /// The oldest piece was read whole.
    #[tactic(auto, using(crate::proofs::Passing::piece_passed))]
    fn pass_piece(&mut self)
        requires there { self.old.passed < length self.old.pieces.items }
        requires arrived { 0 < self.old.arrived }
        ensures { plain_link self.new ≡ with_piece_passed (plain_link self.old) }
    {
        self.passed += 1;
        self.offset = 0;
        self.arrived -= 1;
    }

    /// The next rule is used up.
    #[tactic(auto, using(crate::proofs::Passing::rule_passed))]
    pub fn use_rule(&mut self)
        ensures { plain_link self.new ≡ with_rule_used (plain_link self.old) }
    {
        if self.used < self.rules.len() {
            self.used += 1;
        }
    }

    /// These bytes were written.
    pub fn write(&mut self, bytes: &[u8]) -> Result<(), AllocError>
        ensures ok { OnOk result (plain_link self.new ≡ with_written bytes.now (plain_link self.old)) }
        ensures err { OnErr result (plain_link self.new ≡ plain_link self.old) }
    {
        self.written.extend_from_slice(bytes)?;
        self.use_rule();
        Ok(())
    }
}
