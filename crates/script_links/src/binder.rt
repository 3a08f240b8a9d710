//! A binder in memory.

ghost use Rattle.std.specs.Prelude.{◌≡◌, ◌≢◌, ◌↔◌, ◌≤◌, true, false, Some, [], IfOk, IsSome, IsTrue, MatchResult, Err};
ghost use Rattle.streams.specs.Cause.{Rose, next_if_faulty};
ghost use Rattle.outside.specs.declared.binder.BindFail.TheVariants.{Failed};
ghost use Rattle.outside.specs.Binding.{StartListening, HandsOut, HasBindCause, one_more_back, told_past};
ghost use Rattle.outside.specs.Calling.{StartsCalling, told_called, next_if_either};
ghost use Rattle.script_links.specs.Failing.{uncalled, none_fails, fails_next};
ghost use Rattle.script_links.specs.Followed.{AreFirstLinksOf};
ghost use Rattle.script_links.specs.Answering.{fresh_mem_pipe, no_pipe_reply, mem_pipe_told};
ghost use Rattle.script_links.specs.Listens.{listening_told};
ghost use Rattle.script_links.specs.Kept.{served_of, IsKeptServing};
ghost use Rattle.script_links.specs.Shown.{links_told};
ghost use Rattle.outside.specs.Opening.{AreFreshLinks};
ghost use Rattle.script_links.specs.Binding.{after_binder_call, after_listening, after_return, after_dial, after_hanging_up};

use crate::bound::BoundLinks;
use crate::call_list::{CallList, FailingCalls};
use crate::called::CalledChain;
use crate::copy::copy_of;
use crate::mem_pipe::{MemPipe, PipeReply, hung_up};
use crate::past::{PastChain, PastRow};
use crate::serving::ScriptServing;
use lists::Listed;
use outside::{BindFail, Binder, Handed};
use script_text::Script;
use std::alloc::{AllocError, Global};
use std::marker::Model;
use std::mem;
use std::sync::Arc;
use std::sync::atomic::AtomicU64;
use streams::Tape;

/// Makes links over a script, and pipes over bytes. The calls to listen and to dial whose numbers were given, counted together from 0, fail and count a fault each; and
/// so do calls on the links and on the pipes.
pub struct MemBinder {
    /// The script.
    script: Script,
    /// The calls to listen and to dial.
    calls: CallList,
    /// The numbers of the calls that ask what is next and are to fail on each links, where any are.
    nexts: Option<Listed<u64>>,
    /// The connection of which reads and writes are to fail on each links.
    conn: u32,
    /// The numbers of these reads, where any are.
    reads: Option<Listed<u64>>,
    /// The numbers of these writes, where any are.
    writes: Option<Listed<u64>>,
    /// What the pipe of the next call to dial answers, where that was said.
    answer: Option<PipeReply>,
    /// How many calls failed; it stands still at its type's end.
    faults: u64,
    /// The links that came back.
    past: PastChain,
    /// The pipes that were hung up.
    called: CalledChain,
    /// What was handed out and has come back, for proofs alone.
    handed: Handed,
}

impl Model for MemBinder {
    ghost use Rattle.script_links.specs.Failing.{uncalled, numbers_given};
    ghost use Rattle.script_links.specs.Answering.{pipe_reply_given};
    ghost use Rattle.script_links.specs.Binding.{BinderState};
    ghost use Rattle.script_links.specs.Past.{past_in_chain};
    ghost use Rattle.script_links.specs.Called.{called_in_chain};

    ghost Value = { BinderState };

    ghost view = { λ b. record {
      script = b.script;
      calls = b.calls;
      plan = record { nexts = uncalled (numbers_given b.nexts); conn = b.conn; reads = uncalled (numbers_given b.reads); writes = uncalled (numbers_given b.writes) };
      answer = pipe_reply_given b.answer;
      faults = b.faults;
      past = past_in_chain b.past;
      called = called_in_chain b.called;
      handed = b.handed;
    } };
}

// Written out, so that crates above needn't prove it again.
impl Drop for MemBinder {
    fn drop(self) {
        let MemBinder {
            script,
            calls,
            nexts,
            conn: _,
            reads,
            writes,
            answer,
            faults: _,
            past,
            called,
            handed,
        } = self;
        drop(script);
        drop(calls);
        drop(nexts);
        drop(reads);
        drop(writes);
        drop(answer);
        drop(past);
        drop(called);
        drop(handed);
    }
}

impl MemBinder {
    /// Makes a binder over this script, with the numbers of the calls to listen and to dial that are to fail, counted together; takes no memory.
    pub fn new(script: Script, fails: Vec<u64>) -> Self
        ensures { result ≡ record { script = script; calls = uncalled fails.items; plan = none_fails; answer = no_pipe_reply; faults = 0; past = []; called = []; handed = record { out = 0; back = 0 } } }
    {
        MemBinder {
            script,
            calls: CallList::new(fails),
            nexts: None,
            conn: 0,
            reads: None,
            writes: None,
            answer: None,
            faults: 0,
            past: PastChain::Nothing,
            called: CalledChain::Nothing,
            handed: Handed::new(),
        }
    }

    /// The same binder, on whose links these reads and writes of connection `c` fail, by their numbers from 0; no other reads and writes do, so this is said once. Takes
    /// no memory.
    pub fn with_link_fails(self, c: u32, reads: Vec<u64>, writes: Vec<u64>) -> MemBinder
        requires once { (self.plan.reads ≡ uncalled []) × (self.plan.writes ≡ uncalled []) }
        ensures { result ≡ record self { plan = record self.plan { conn = c; reads = uncalled reads.items; writes = uncalled writes.items } } }
    {
        let mut binder = self;
        binder.conn = c;
        binder.reads = Some(Listed::new(reads));
        binder.writes = Some(Listed::new(writes));
        binder
    }

    /// The same binder, on whose links these calls fail that ask what is next, by their numbers from 0, and no others. Takes no memory.
    pub fn with_net_fails(self, nexts: Vec<u64>) -> MemBinder
        ensures { result ≡ record self { plan = record self.plan { nexts = uncalled nexts.items } } }
    {
        let mut binder = self;
        binder.nexts = Some(Listed::new(nexts));
        binder
    }

    /// The same binder, of which the next pipe that it dials answers this; the reads and writes of it whose numbers are given, counted together from 0, fail and count a
    /// fault each. Any other pipe gives its end at once, and fails nowhere. Takes no memory.
    pub fn with_pipe(self, reply: Vec<u8>, fails: Vec<u64>) -> MemBinder
        ensures { result ≡ record self { answer = record { reply = reply.items; fails = fails.items } } }
    {
        let mut binder = self;
        binder.answer = Some(PipeReply { reply, fails });
        binder
    }

    /// Whether it tells of the links that came back: in memory it does.
    pub fn tells(&self) -> bool
        ensures { result ≡ true }
    {
        true
    }

    /// Counts a call to listen or to dial, and a fault where it is to fail.
    fn count_call(&mut self) -> bool
        ensures fails { result ≡ fails_next self.old.calls }
        ensures later { self.old.faults ≤ self.new.faults }
        ensures rose { IsTrue result → Rose self.old.faults self.new.faults }
        ensures kept { result ≡ false → self.new.faults ≡ self.old.faults }
        ensures after { self.new ≡ after_binder_call self.old }
    {
        let fails = self.calls.count();
        if fails {
            self.faults = self.faults.saturating_add(1);
        }
        fails
    }

    /// Counts a fault where links that came back have failed.
    fn count_links(&mut self, net_faults: u64)
        ensures { self.new ≡ record self.old { faults = next_if_faulty net_faults self.old.faults } }
    {
        if net_faults > 0 {
            self.faults = self.faults.saturating_add(1);
        }
    }

    /// Counts a fault where a read or a write of a pipe has failed that was hung up.
    fn count_pipe(&mut self, read_faults: u64, write_faults: u64)
        ensures { self.new ≡ record self.old { faults = next_if_either read_faults write_faults self.old.faults } }
    {
        if read_faults > 0 || write_faults > 0 {
            self.faults = self.faults.saturating_add(1);
        }
    }

    /// The calls that are to fail on links.
    fn failing_calls(&self, alloc: Global) -> Result<FailingCalls, AllocError>
        ensures { IfOk result (λ failing. failing ≡ self.now.plan) }
    {
        let nexts = CallList::copied(alloc, &self.nexts)?;
        let reads = CallList::copied(alloc, &self.reads)?;
        let writes = CallList::copied(alloc, &self.writes)?;
        Ok(FailingCalls {
            nexts,
            conn: self.conn,
            reads,
            writes,
        })
    }

    /// Makes what serves the first connections of a copy of the script, so many at most.
    fn serve_first(&self, alloc: Global, accept: u32) -> Result<ScriptServing, AllocError>
        ensures own { IfOk result (λ s. AreFirstLinksOf accept self.now.script (served_of s)) }
        ensures fresh { IfOk result (λ s. AreFreshLinks (links_told (served_of s))) }
        ensures kept { IfOk result IsKeptServing }
    {
        let script = copy_of(alloc, &self.script)?;
        ScriptServing::of_first(alloc, script, accept as usize)
    }

    /// Makes links over a copy of the script.
    fn make(&self, alloc: Global, port: u16, accept: u32) -> Result<BoundLinks, AllocError>
        ensures made { IfOk result (λ links. StartListening (Some []) (record { port = port; accept = accept }) (listening_told links)) }
        ensures own { IfOk result (λ links. AreFirstLinksOf accept self.now.script links.served) }
        ensures plan { IfOk result (λ links. links.plan ≡ self.now.plan) }
    {
        let room = Box::new(alloc, PastChain::Nothing)?;
        let rung = Arc::new(alloc, AtomicU64::new(0))?;
        let failing = self.failing_calls(alloc)?;
        let serving = self.serve_first(alloc, accept)?;
        Ok(BoundLinks {
            serving,
            rung,
            failing,
            net_faults: 0,
            port,
            accept,
            room,
        })
    }

    /// Makes a pipe to this port, which answers what was said.
    fn answering(&mut self, alloc: Global, port: u16) -> Result<MemPipe, AllocError>
        ensures own { IfOk result (λ pipe. pipe ≡ fresh_mem_pipe port self.old.answer) }
        ensures after { MatchResult result (λ _. self.new ≡ record self.old { answer = no_pipe_reply }) (λ _. self.new ≡ self.old) }
    {
        let room = Box::new(alloc, CalledChain::Nothing)?;
        let answer = match mem::replace(&mut self.answer, None) {
            Some(answer) => answer,
            None => PipeReply {
                reply: Vec::new(alloc),
                fails: Vec::new(alloc),
            },
        };
        Ok(MemPipe::new(alloc, port, answer, room))
    }
}

impl Binder for MemBinder {
    type L = BoundLinks;

    type P = MemPipe;

    ghost past = { λ b. Some b.past };

    ghost called = { λ b. Some b.called };

    ghost faults = { λ b. b.faults };

    ghost handed = { λ b. b.handed };

    fn listen(&mut self, alloc: Global, port: u16, accept: u32) -> Result<BoundLinks, BindFail>
        ensures made { IfOk result (λ links. StartListening (Some self.old.past) (record { port = port; accept = accept }) (listening_told links)) }
        ensures same { Some self.new.past ≡ Some self.old.past }
        ensures called_same { Some self.new.called ≡ Some self.old.called }
        ensures handed { HandsOut self.old.handed self.new.handed result }
        ensures cause { HasBindCause self.old.faults self.new.faults result }
        // It fails where it was told to, and nowhere else; its links are over the script's first connections, and fail where they were told to.
        ensures fails { result ≡ Err Failed ↔ IsTrue (fails_next self.old.calls) }
        ensures own { IfOk result (λ links. AreFirstLinksOf accept self.old.script links.served) }
        ensures plan { IfOk result (λ links. links.plan ≡ self.old.plan) }
        ensures after { MatchResult result (λ _. self.new ≡ after_listening self.old) (λ _. self.new ≡ after_binder_call self.old) }
    {
        if self.count_call() {
            return Err(BindFail::Failed);
        }
        match self.make(alloc, port, accept) {
            Ok(links) => {
                self.handed.hand_out();
                Ok(links)
            }
            Err(AllocError) => Err(BindFail::NoMemory),
        }
    }

    fn take_back(&mut self, links: BoundLinks)
        requires { IsSome (listening_told links).listens }
        ensures past { Some self.new.past ≡ told_past (Some self.old.past) (listening_told links) }
        ensures called_same { Some self.new.called ≡ Some self.old.called }
        ensures handed { self.new.handed ≡ one_more_back self.old.handed }
        ensures cause { self.new.faults ≡ next_if_faulty (listening_told links).net_faults self.old.faults }
        ensures after { self.new ≡ after_return links self.old }
    {
        let BoundLinks {
            serving,
            net_faults,
            port,
            accept,
            mut room,
            ..
        } = links;
        let over = serving.over;
        let tape = tape_of(serving);
        *room = mem::replace(&mut self.past, PastChain::Nothing);
        self.past = PastChain::Behind(
            room,
            PastRow {
                tape,
                over,
                port,
                accept,
            },
        );
        self.handed.take_back();
        self.count_links(net_faults);
    }

    fn dial(&mut self, alloc: Global, port: u16) -> Result<MemPipe, BindFail>
        ensures made { IfOk result (λ pipe. StartsCalling (Some self.old.called) port (mem_pipe_told pipe)) }
        ensures same { Some self.new.called ≡ Some self.old.called }
        ensures past_same { Some self.new.past ≡ Some self.old.past }
        ensures handed { HandsOut self.old.handed self.new.handed result }
        ensures cause { HasBindCause self.old.faults self.new.faults result }
        // It fails where it was told to, and nowhere else; its pipe answers what was said, and fails where it was told to.
        ensures fails { result ≡ Err Failed ↔ IsTrue (fails_next self.old.calls) }
        ensures own { IfOk result (λ pipe. pipe ≡ fresh_mem_pipe port self.old.answer) }
        ensures after { MatchResult result (λ _. self.new ≡ after_dial self.old) (λ _. self.new ≡ after_binder_call self.old) }
    {
        if self.count_call() {
            return Err(BindFail::Failed);
        }
        match self.answering(alloc, port) {
            Ok(pipe) => {
                self.handed.hand_out();
                Ok(pipe)
            }
            Err(AllocError) => Err(BindFail::NoMemory),
        }
    }

    fn hang_up(&mut self, pipe: MemPipe)
        ensures called { Some self.new.called ≡ told_called (Some self.old.called) (mem_pipe_told pipe) }
        ensures past_same { Some self.new.past ≡ Some self.old.past }
        ensures handed { self.new.handed ≡ one_more_back self.old.handed }
        ensures cause { self.new.faults ≡ next_if_either (mem_pipe_told pipe).read_faults (mem_pipe_told pipe).write_faults self.old.faults }
        ensures after { self.new ≡ after_hanging_up pipe self.old }
    {
        let (read_faults, write_faults) = (pipe.read_faults(), pipe.write_faults());
        let before = mem::replace(&mut self.called, CalledChain::Nothing);
        self.called = hung_up(pipe, before);
        self.handed.take_back();
        self.count_pipe(read_faults, write_faults);
    }
}

/// Gives the tape of what served a script; takes no memory.
fn tape_of(serving: ScriptServing) -> Tape
    ensures { result ≡ serving.tape.items }
{
    serving.tape.finish()
}
