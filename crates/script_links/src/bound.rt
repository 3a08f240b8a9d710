//! Links over a script that listen, of whose calls some may be to fail.

ghost use Rattle.std.specs.Prelude.{◌≡◌, ◌↔◌, ℕ, List, Option, ◌<◌, true, length, IfOk, IsErr, IsTrue};
ghost use Rattle.outside.specs.Asking.{AnswersAsk};
ghost use Rattle.outside.specs.Reading.{Reads, bytes_read};
ghost use Rattle.outside.specs.Writing.{WritesToConnection};
ghost use Rattle.outside.specs.Closing.{Closes};
ghost use Rattle.script_links.specs.ServedScript.{is_open_at, link_at};
ghost use Rattle.script_links.specs.Plain.{next_of, hint_of, left_by_read, left_by_write, left_by_close, taken_by_read, taken_by_rules, oldest_of, MayComeTo, IsFrontOfPiece};
ghost use Rattle.script_links.specs.Kept.{served_of, IsKeptServing};
ghost use Rattle.script_links.specs.Failing.{fails_next, read_fails, write_fails, after_reading, after_writing};
ghost use Rattle.script_links.specs.Listens.{listening_told, plan_of_listening, listening_with, left_by_asking, failed_or, taken_by_reading, taken_by_writing, left_by_reading, left_by_writing};
ghost use Rattle.script_links.specs.Followed.{LinksPlan};

use crate::ScriptBell;
use crate::call_list::FailingCalls;
use crate::over_script::told;
use crate::past::PastChain;
use crate::serving::ScriptServing;
use outside::{Ask, Hint, Links, Taken};
use std::alloc::{AllocError, Global};
use std::marker::Model;
use std::sync::atomic::AtomicU64;
use std::sync::{Arc, Wait};
use streams::Failed;

/// Links over a script that listen at a port, and accept so many connections at most. A call that is to fail does; each other one does just what the links over
/// the script do.
#[derive(Drop)]
pub struct BoundLinks {
    /// What is kept of the script, and what has happened.
    pub(crate) serving: ScriptServing,
    /// The word that bells share.
    pub(crate) rung: Arc<AtomicU64, Global>,
    /// The calls that are to fail.
    pub(crate) failing: FailingCalls,
    /// How often asking what is next failed; it stands still at its type's end.
    pub(crate) net_faults: u64,
    /// The port.
    pub(crate) port: u16,
    /// How many connections they accept at most.
    pub(crate) accept: u32,
    /// The box that it takes to have them back.
    pub(crate) room: Box<PastChain>,
}

impl Model for BoundLinks {
    ghost use Rattle.std.specs.Prelude.{◌≤◌, length};
    ghost use Rattle.script_links.specs.Kept.{served_of, IsKeptServing, IsOverAtEnd};
    ghost use Rattle.script_links.specs.Listens.{ListeningScript};

    ghost Value = { ListeningScript };

    ghost view = { λ b. record { served = served_of b.serving; listening = record { port = b.port; accept = b.accept }; plan = b.failing; net_faults = b.net_faults } };

    ghost invariant = { λ b. IsKeptServing b.serving × IsOverAtEnd (served_of b.serving) × (length (served_of b.serving).links ≤ b.accept) };
}

impl Links for BoundLinks {
    type Bell = ScriptBell;

    ghost Plan = { LinksPlan };

    ghost plan = { plan_of_listening };

    ghost state = { listening_told };

    fn bell(&self, _alloc: Global) -> Result<ScriptBell, AllocError> {
        ScriptBell::of_word(&self.rung)
    }

    fn next<R: Wait>(&mut self, rt: &R, ask: Ask) -> Result<Hint, Failed>
        ensures answers { AnswersAsk ask (listening_told self.old) (listening_told self.new) result }
        ensures same_plan { plan_of_listening self.new ≡ plan_of_listening self.old }
        // It fails where it was told to, and nowhere else; else it does the next line, or tells of a write, just as the rules of scripts say.
        ensures fails { IsErr result ↔ IsTrue (fails_next self.old.plan.nexts) }
        ensures hint { IfOk result (λ hint. hint ≡ hint_of (next_of ask self.old.served).came) }
        ensures after { self.new ≡ left_by_asking ask self.old }
    {
        if self.failing.ask() {
            self.net_faults = self.net_faults.saturating_add(1);
            return Err(Failed);
        }
        let came = self.serving.next(ask);
        Ok(told(rt, &self.rung, came))
    }

    fn read(&mut self, c: u32, into: &mut [u8]) -> Taken
        requires open_still { (listening_told self.old).is_open c ≡ true }
        requires room { 0 < length into.old }
        ensures reads { Reads c into.new (listening_told self.old) (listening_told self.new) result }
        ensures same_plan { plan_of_listening self.new ≡ plan_of_listening self.old }
        // Where it isn't to fail, it takes of the oldest piece alone, and comes to no more than the script says.
        ensures comes { MayComeTo (taken_by_reading c (length into.old) self.old) result }
        ensures after { self.new ≡ left_by_reading c (length into.old) (bytes_read into.new result) result self.old }
    {
        let fails = self.failing.read(c);
        read(&mut self.serving, fails, c, into)
    }

    fn write(&mut self, c: u32, bytes: &[u8]) -> Taken
        requires open_still { (listening_told self.old).is_open c ≡ true }
        requires some { 0 < length bytes.now }
        ensures writes { WritesToConnection c bytes.now (listening_told self.old) (listening_told self.new) result }
        ensures same_plan { plan_of_listening self.new ≡ plan_of_listening self.old }
        // Where it isn't to fail, it goes by the next rule.
        ensures comes { MayComeTo (taken_by_writing c (length bytes.now) self.old) result }
        ensures after { self.new ≡ left_by_writing c bytes.now result self.old }
    {
        let fails = self.failing.write(c);
        write(&mut self.serving, fails, c, bytes)
    }

    fn close(&mut self, c: u32)
        requires { (listening_told self.old).is_open c ≡ true }
        ensures closes { Closes c (listening_told self.old) (listening_told self.new) }
        ensures same_plan { plan_of_listening self.new ≡ plan_of_listening self.old }
        ensures after { self.new ≡ listening_with self.old (left_by_close c self.old.served) }
    {
        self.serving.close(c);
    }
}

/// A read of connection `c`, which is open, or one that is to fail.
fn read(serving: &mut ScriptServing, fails: bool, c: u32, into: &mut [u8]) -> Taken
    requires kept { IsKeptServing serving.old }
    requires open_still { is_open_at (served_of serving.old).links c ≡ true }
    ensures comes { MayComeTo (failed_or fails (taken_by_read (length into.old) (link_at (served_of serving.old).links c))) result }
    ensures front { IsFrontOfPiece result into.new (oldest_of (link_at (served_of serving.old).links c)) }
    ensures after { served_of serving.new ≡ left_by_read c (length into.old) (bytes_read into.new result) result (served_of serving.old) }
    ensures kept { IsKeptServing serving.new }
{
    if fails {
        return serving.fail_read(c);
    }
    serving.read(c, into)
}

/// A write on connection `c`, which is open, or one that is to fail.
fn write(serving: &mut ScriptServing, fails: bool, c: u32, bytes: &[u8]) -> Taken
    requires kept { IsKeptServing serving.old }
    requires open_still { is_open_at (served_of serving.old).links c ≡ true }
    ensures comes { MayComeTo (failed_or fails (taken_by_rules (length bytes.now) (link_at (served_of serving.old).links c).rules)) result }
    ensures after { served_of serving.new ≡ left_by_write c bytes.now result (served_of serving.old) }
    ensures kept { IsKeptServing serving.new }
{
    if fails {
        return serving.fail_write(c, bytes);
    }
    serving.write(c, bytes)
}
