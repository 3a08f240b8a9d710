//! Links over a script, and their bell.

ghost use Rattle.std.specs.Prelude.{◌≡◌, ◌<◌, true, length, Ok, IfOk};
ghost use Rattle.outside.specs.Asking.{AnswersAsk};
ghost use Rattle.outside.specs.Reading.{Reads, bytes_read};
ghost use Rattle.outside.specs.Writing.{WritesToConnection};
ghost use Rattle.outside.specs.Closing.{Closes};
ghost use Rattle.script_links.specs.ServedScript.{link_at};
ghost use Rattle.script_links.specs.Plain.{next_of, hint_of, left_by_read, left_by_write, left_by_close, taken_by_read, taken_by_rules, MayComeTo};
ghost use Rattle.script_links.specs.Shown.{links_told};
ghost use Rattle.outside.specs.Opening.{AreFreshLinks};
ghost use Rattle.script_model.specs.ScriptLines.{ScriptPlan};
ghost use Rattle.script_links.specs.Followed.{LinksPlan, plan_of_links, AreLinksOf, FollowsScript};

use crate::serving::ScriptServing;
use crate::step::Came;
use outside::{Ask, Bell, Hint, Links, Taken};
use script_text::Script;
use std::alloc::{AllocError, Global};
use std::marker::Model;
use std::sync::atomic::{AtomicU64, Ordering};
use std::sync::{Arc, Wait};
use streams::{Cursor, Failed, Tape};

/// The bell of links over a script: a word that they share with each bell, 1 once it was rung.
#[derive(Drop)]
pub struct ScriptBell {
    /// The word.
    rung: Arc<AtomicU64, Global>,
}

impl ScriptBell {
    /// One more bell of this word.
    pub(crate) fn of_word(rung: &Arc<AtomicU64, Global>) -> Result<ScriptBell, AllocError> {
        let rung = Arc::try_clone(rung)?;
        Ok(ScriptBell { rung })
    }
}

impl Bell for ScriptBell {
    fn ring<R: Wait>(&self, _rt: &R) {
        self.rung.store(1, Ordering::SeqCst);
        self.rung.wake_one();
    }
}

/// Links over a script: its lines are done in order, as they are asked what is next.
pub struct ScriptLinks {
    /// What is kept of the script, and what has happened.
    serving: ScriptServing,
    /// The word that bells share.
    rung: Arc<AtomicU64, Global>,
}

impl Model for ScriptLinks {
    ghost use Rattle.script_links.specs.ServedScript.{ServedScript};
    ghost use Rattle.script_links.specs.Kept.{served_of, IsKeptServing, IsOverAtEnd};
    ghost use Rattle.script_links.specs.Followed.{FollowsItsScript};

    ghost Value = { ServedScript };

    ghost view = { λ s. served_of s.serving };

    ghost invariant = { λ s. IsKeptServing s.serving × IsOverAtEnd (served_of s.serving) × FollowsItsScript (served_of s.serving) };
}

// Written out, so that crates above needn't prove it again.
impl Drop for ScriptLinks {
    fn drop(self) {
        let ScriptLinks { serving, rung } = self;
        drop(serving);
        drop(rung);
    }
}

impl ScriptLinks {
    /// Links over this script. They take room for the marks of openings, ends and closings, and for the places of rest.
    pub fn new(alloc: Global, script: Script) -> Result<ScriptLinks, AllocError>
        ensures fresh { IfOk result (λ links. AreFreshLinks (links_told links)) }
        ensures own { IfOk result (λ links. AreLinksOf script links) }
    {
        let serving = ScriptServing::new(alloc, script)?;
        let rung = Arc::new(alloc, AtomicU64::new(0))?;
        Ok(ScriptLinks { serving, rung })
    }

    /// Once it was said that all is over, the links have followed the script that they were made of to its end. What they were made of never changes.
    pub fn follow_their_script(&self)
        ensures { (script : ScriptPlan) → AreLinksOf script self.now → self.now.over ≡ true → FollowsScript script self.now.tape self.now.rests self.now.lengths }
    {
        let _over = self.serving.over;
    }

    /// Whether it was said that all is over.
    pub fn is_over(&self) -> bool
        ensures { result ≡ self.now.over }
    {
        self.serving.over
    }

    /// The tape so far.
    pub fn tape(&self) -> Cursor<'_>
        ensures { result ≡ self.now.tape }
    {
        self.serving.tape.marks()
    }

    /// Gives the tape; takes no memory.
    pub fn into_tape(self) -> Tape
        ensures { result ≡ self.tape }
    {
        let ScriptLinks { serving, rung } = self;
        drop(rung);
        serving.tape.finish()
    }

    /// What was written to connection `c`.
    pub fn out(&self, c: u32) -> &[u8]
        ensures { result.now ≡ (link_at self.now.links c).written }
    {
        self.serving.links.written(c)
    }
}

impl Links for ScriptLinks {
    type Bell = ScriptBell;

    ghost Plan = { LinksPlan };

    ghost plan = { plan_of_links };

    ghost state = { links_told };

    fn bell(&self, _alloc: Global) -> Result<ScriptBell, AllocError> {
        ScriptBell::of_word(&self.rung)
    }

    fn next<R: Wait>(&mut self, rt: &R, ask: Ask) -> Result<Hint, Failed>
        ensures answers { AnswersAsk ask (links_told self.old) (links_told self.new) result }
        ensures same_plan { plan_of_links self.new ≡ plan_of_links self.old }
        // It does the next line, or tells of a write, just as the rules of scripts say.
        ensures hint { result ≡ Ok (hint_of (next_of ask self.old).came) }
        ensures after { self.new ≡ (next_of ask self.old).left }
    {
        let came = self.serving.next(ask);
        Ok(told(rt, &self.rung, came))
    }

    fn read(&mut self, c: u32, into: &mut [u8]) -> Taken
        requires open_still { (links_told self.old).is_open c ≡ true }
        requires room { 0 < length into.old }
        ensures reads { Reads c into.new (links_told self.old) (links_told self.new) result }
        ensures same_plan { plan_of_links self.new ≡ plan_of_links self.old }
        // It takes of the oldest piece alone, and comes to no more than the script says.
        ensures comes { MayComeTo (taken_by_read (length into.old) (link_at self.old.links c)) result }
        ensures after { self.new ≡ left_by_read c (length into.old) (bytes_read into.new result) result self.old }
    {
        self.serving.read(c, into)
    }

    fn write(&mut self, c: u32, bytes: &[u8]) -> Taken
        requires open_still { (links_told self.old).is_open c ≡ true }
        requires some { 0 < length bytes.now }
        ensures writes { WritesToConnection c bytes.now (links_told self.old) (links_told self.new) result }
        ensures same_plan { plan_of_links self.new ≡ plan_of_links self.old }
        // It goes by the next rule.
        ensures comes { MayComeTo (taken_by_rules (length bytes.now) (link_at self.old.links c).rules) result }
        ensures after { self.new ≡ left_by_write c bytes.now result self.old }
    {
        self.serving.write(c, bytes)
    }

    fn close(&mut self, c: u32)
        requires { (links_told self.old).is_open c ≡ true }
        ensures closes { Closes c (links_told self.old) (links_told self.new) }
        ensures same_plan { plan_of_links self.new ≡ plan_of_links self.old }
        ensures after { self.new ≡ left_by_close c self.old }
    {
        self.serving.close(c);
    }
}

/// The hint that a call comes to; where nothing is to be told, the bell is waited for.
pub(crate) fn told<R: Wait>(rt: &R, rung: &AtomicU64, came: Came) -> Hint
    ensures { result ≡ hint_of came }
{
    match came {
        Came::Gives(hint) => hint,
        Came::Waits => {
            wait(rt, rung);
            Hint::Woken
        }
        Came::GoesOn => Hint::Woken,
    }
}

/// Waits until the bell is rung, or for no reason.
fn wait<R: Wait>(rt: &R, rung: &AtomicU64) {
    if rung.swap(0, Ordering::SeqCst) == 0 {
        rung.park(rt, 0);
        rung.store(0, Ordering::SeqCst);
    }
}
