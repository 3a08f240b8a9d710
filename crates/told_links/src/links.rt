//! Links over other links.

ghost use Rattle.std.specs.Prelude.{◌≡◌, ◌<◌, ◌++◌, ◌∷◌, [], true, length};
ghost use Rattle.outside.specs.Asking.{AnswersAsk};
ghost use Rattle.outside.specs.Reading.{Reads, marks_of_read};
ghost use Rattle.outside.specs.Writing.{WritesToConnection, marks_of_write};
ghost use Rattle.outside.specs.Closing.{Closes};
ghost use Rattle.streams.specs.declared.marks.Mark.TheVariants.{Closed};
ghost use Rattle.told_links.specs.Telling.{marks_of_ask};

use crate::note::Note;
use crate::noting::{note_ask, note_read, note_write};
use lists::Appended;
use outside::{Ask, Hint, Links, Taken};
use std::alloc::{AllocError, Global};
use std::marker::Model;
use std::sync::Wait;
use streams::Failed;

/// Links that pass each call on, and tell what it answered.
#[derive(Drop)]
pub struct ToldLinks<L: Links + Drop> {
    pub(crate) inner: L,
    // What happened, the oldest first, for proofs alone.
    pub(crate) tape: Appended<Note>,
}

impl<L: Links + Drop> Model for ToldLinks<L> {
    ghost use Rattle.told_links.specs.Shown.{ToldTape};
    ghost use Rattle.told_links.specs.Noted.{marks_noted};
    ghost use Rattle.told_links.specs.Same.{IsSameIfTold};

    ghost Value = { ToldTape L };

    ghost view = { λ l. record { inner = l.inner; tape = marks_noted l.tape } };

    // Where the links inside tell their tape, it is the same.
    ghost invariant = { λ l. IsSameIfTold (L.state l.inner).tape (marks_noted l.tape) };
}

impl<L: Links + Drop> Links for ToldLinks<L> {
    ghost use Rattle.told_links.specs.Telling.{told_links};

    type Bell = L::Bell;

    ghost Plan = { L.Plan };

    ghost plan = { λ l. L.plan l.inner };

    ghost state = { λ l. told_links (L.state l.inner) l.tape };

    fn bell(&self, alloc: Global) -> Result<L::Bell, AllocError> {
        self.inner.bell(alloc)
    }

    fn next<R: Wait>(&mut self, rt: &R, ask: Ask) -> Result<Hint, Failed>
        ensures inside { AnswersAsk ask (L.state self.old.inner) (L.state self.new.inner) result }
        ensures tape { self.new.tape ≡ self.old.tape ++ marks_of_ask result }
        ensures same_plan { L.plan self.new.inner ≡ L.plan self.old.inner }
    {
        let answer = self.inner.next(rt, ask);
        note_ask(&mut self.tape, &answer);
        answer
    }

    fn read(&mut self, c: u32, into: &mut [u8]) -> Taken
        requires open_still { (L.state self.old.inner).is_open c ≡ true }
        requires room { 0 < length into.old }
        ensures inside { Reads c into.new (L.state self.old.inner) (L.state self.new.inner) result }
        ensures tape { self.new.tape ≡ self.old.tape ++ marks_of_read c into.new result }
        ensures same_plan { L.plan self.new.inner ≡ L.plan self.old.inner }
    {
        let taken = self.inner.read(c, into);
        note_read(&mut self.tape, c, into, taken);
        taken
    }

    fn write(&mut self, c: u32, bytes: &[u8]) -> Taken
        requires open_still { (L.state self.old.inner).is_open c ≡ true }
        requires some { 0 < length bytes.now }
        ensures inside { WritesToConnection c bytes.now (L.state self.old.inner) (L.state self.new.inner) result }
        ensures tape { self.new.tape ≡ self.old.tape ++ marks_of_write c bytes.now result }
        ensures same_plan { L.plan self.new.inner ≡ L.plan self.old.inner }
    {
        let taken = self.inner.write(c, bytes);
        note_write(&mut self.tape, c, bytes, taken);
        taken
    }

    fn close(&mut self, c: u32)
        requires { (L.state self.old.inner).is_open c ≡ true }
        ensures inside { Closes c (L.state self.old.inner) (L.state self.new.inner) }
        ensures tape { self.new.tape ≡ self.old.tape ++ Closed c ∷ [] }
        ensures same_plan { L.plan self.new.inner ≡ L.plan self.old.inner }
    {
        self.inner.close(c);
        self.tape.push(&Note::Closed(c));
    }
}
