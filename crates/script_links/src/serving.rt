//! A script that links serve: what each of their calls does, apart from waiting.

ghost use Rattle.std.specs.Prelude.{◌≡◌, Some};
ghost use Rattle.script_links.specs.declared.step.Step.TheVariants.{Opens, Arrives, Rests, Passes};
ghost use Rattle.script_links.specs.Plain.{first_of, one_step, next_step, next_of, next_at_end, may_rest};
ghost use Rattle.script_links.specs.Kept.{served_of, IsKeptServing};
ghost use Rattle.script_links.specs.Steps.{step_of_finish};

use crate::connections::Connections;
use crate::link::LinkInputEnd;
use crate::mark_log::MarkLog;
use crate::step::{Came, Step};
use outside::{Ask, Hint};
use std::alloc::Global;
use std::collections::VecDeque;
use streams::{MarkAt, RestPlace};

/// What is kept of a script that links serve.
#[derive(Drop)]
pub struct ScriptServing {
    /// What takes memory for marks.
    pub alloc: Global,
    /// The steps of its lines.
    pub steps: Vec<Step>,
    /// How many of them are done.
    pub done: usize,
    /// How many connections were opened.
    pub opened: usize,
    /// Its connections, by number.
    pub links: Connections,
    /// Connections on which a write wasn't possible, which is to be told.
    pub blocked: VecDeque<u32>,
    /// Whether it was said that all is over.
    pub over: bool,
    /// What happened, the oldest first; there is room for the marks that connections are owed.
    pub tape: MarkLog,
    /// The places of rest; there is room for those to come.
    pub rests: Vec<RestPlace>,
    /// For each mark of bytes the length of what was lent for them.
    pub lengths: Vec<usize>,
}

impl ScriptServing {
    /// What is next.
    pub fn next(&mut self, ask: Ask) -> Came
        requires kept { IsKeptServing self.old }
        ensures next { next_of ask (served_of self.old) ≡ record { came = result; left = served_of self.new } }
        ensures kept { IsKeptServing self.new }
    {
        if let Some(c) = self.blocked.pop_front() {
            return Came::Gives(Hint::Writable(c));
        }
        self.next_step(ask)
    }

    /// What is next of the steps.
    fn next_step(&mut self, ask: Ask) -> Came
        requires kept { IsKeptServing self.old }
        ensures next { next_step ask (served_of self.old) ≡ record { came = result; left = served_of self.new } }
        ensures kept { IsKeptServing self.new }
    {
        'steps: while let Some(step) = self.first_step() {
            let came = self.do_step(ask, step);
            match came {
                Came::GoesOn => {}
                Came::Gives(_) => return came,
                Came::Waits => return came,
            }
        }
        self.at_end()
    }

    /// The first step that is left.
    fn first_step(&self) -> Option<Step>
        ensures { first_of (served_of self.now).steps ≡ result }
    {
        match self.steps.get(self.done) {
            Some(step) => Some(*step),
            None => None,
        }
    }

    /// What is next where no step is left.
    fn at_end(&mut self) -> Came
        requires kept { IsKeptServing self.old }
        ensures next { next_at_end (served_of self.old) ≡ record { came = result; left = served_of self.new } }
        ensures kept { IsKeptServing self.new }
    {
        if self.links.some_open() {
            return Came::Waits;
        }
        self.over = true;
        Came::Gives(Hint::Over)
    }

    /// Does the first step, where it needn't wait.
    fn do_step(&mut self, ask: Ask, step: Step) -> Came
        requires kept { IsKeptServing self.old }
        requires first { first_of (served_of self.old).steps ≡ Some step }
        ensures next { one_step ask step (served_of self.old) ≡ record { came = result; left = served_of self.new } }
        ensures kept { IsKeptServing self.new }
    {
        match step {
            Step::Opens => self.open(ask),
            Step::Arrives(c) => self.arrive(ask, c),
            Step::Ends(c) => self.finish(ask, c, LinkInputEnd::Ends),
            Step::Fails(c) => self.finish(ask, c, LinkInputEnd::Fails),
            Step::Rests => self.rest(ask),
            Step::Passes => self.pass(ask),
        }
    }

    /// A step that opens a connection, where there is room for one, and one to open.
    fn open(&mut self, ask: Ask) -> Came
        requires kept { IsKeptServing self.old }
        requires first { first_of (served_of self.old).steps ≡ Some Opens }
        ensures next { one_step ask Opens (served_of self.old) ≡ record { came = result; left = served_of self.new } }
        ensures kept { IsKeptServing self.new }
    {
        if !self.links.is_coming(self.opened) {
            self.done += 1;
            return Came::GoesOn;
        }
        if !ask.room {
            return Came::Waits;
        }
        let c = self.opened as u32;
        self.links.open(self.opened);
        self.tape.push(MarkAt::Opened(c));
        self.opened += 1;
        self.done += 1;
        Came::Gives(Hint::Opened(c))
    }

    /// A step at which a piece arrives, where its connection is open.
    fn arrive(&mut self, ask: Ask, c: u32) -> Came
        requires kept { IsKeptServing self.old }
        requires first { first_of (served_of self.old).steps ≡ Some (Arrives c) }
        ensures next { one_step ask (Arrives c) (served_of self.old) ≡ record { came = result; left = served_of self.new } }
        ensures kept { IsKeptServing self.new }
    {
        self.done += 1;
        if !self.links.is_open(c) {
            return Came::GoesOn;
        }
        self.links.arrive(c as usize);
        Came::Gives(Hint::Readable(c))
    }

    /// A step that tells what comes after all pieces of a connection, where it is open.
    fn finish(&mut self, ask: Ask, c: u32, finish: LinkInputEnd) -> Came
        requires kept { IsKeptServing self.old }
        requires first { first_of (served_of self.old).steps ≡ Some (step_of_finish c finish) }
        ensures next { one_step ask (step_of_finish c finish) (served_of self.old) ≡ record { came = result; left = served_of self.new } }
        ensures kept { IsKeptServing self.new }
    {
        self.done += 1;
        if !self.links.is_open(c) {
            return Came::GoesOn;
        }
        self.links.finish(c as usize, finish);
        Came::Gives(Hint::Readable(c))
    }

    /// A step of rest, which is passed over where nothing is under way.
    fn rest(&mut self, ask: Ask) -> Came
        requires kept { IsKeptServing self.old }
        requires first { first_of (served_of self.old).steps ≡ Some Rests }
        ensures next { one_step ask Rests (served_of self.old) ≡ record { came = result; left = served_of self.new } }
        ensures kept { IsKeptServing self.new }
    {
        if !self.may_rest(ask) {
            return Came::Waits;
        }
        self.rests.push_reserved(RestPlace {
            place: self.tape.len(),
            held: ask.held,
        });
        self.done += 1;
        Came::GoesOn
    }

    /// Whether a line of rest is passed over.
    fn may_rest(&self, ask: Ask) -> bool
        ensures { result ≡ may_rest ask (served_of self.now).links }
    {
        ask.idle && (ask.held || !self.links.some_unread())
    }

    /// A step at which nothing is done.
    fn pass(&mut self, ask: Ask) -> Came
        requires kept { IsKeptServing self.old }
        requires first { first_of (served_of self.old).steps ≡ Some Passes }
        ensures next { one_step ask Passes (served_of self.old) ≡ record { came = result; left = served_of self.new } }
        ensures kept { IsKeptServing self.new }
    {
        self.done += 1;
        Came::GoesOn
    }
}
