//! The traits of links and of their bell.

ghost use Rattle.std.specs.Prelude.{◌≡◌, ◌<◌, true, length};
ghost use Rattle.outside.specs.LinksState.{LinksState};
ghost use Rattle.outside.specs.Asking.{AnswersAsk};
ghost use Rattle.outside.specs.Reading.{Reads};
ghost use Rattle.outside.specs.Writing.{WritesToConnection};
ghost use Rattle.outside.specs.Closing.{Closes};

use crate::answers::{Ask, Hint, Taken};
use std::alloc::{AllocError, Global};
use std::sync::Wait;
use streams::Failed;

/// Wakes a loop that waits for its links. Any thread may ring it.
pub trait Bell: Send + Sync + Drop {
    /// Rings. Nothing is claimed of who wakes. It may wait.
    fn ring<R: Wait>(&self, rt: &R);
}

/// Connections, each a link with a number.
pub trait Links {
    /// What wakes the call of `next`.
    type Bell: Bell;

    // What they were made of, as contracts see it.
    ghost Plan: { Type 0 };
    // It never changes.
    ghost plan: { Self → Plan };
    // What has happened on them, as far as it is told.
    ghost state: { Self → LinksState };

    /// A bell of these links.
    fn bell(&self, alloc: Global) -> Result<Self::Bell, AllocError>;

    /// Tells what is next. It may wait.
    fn next<R: Wait>(&mut self, rt: &R, ask: Ask) -> Result<Hint, Failed>
        ensures answers { AnswersAsk ask (state self.old) (state self.new) result }
        ensures same_plan { plan self.new ≡ plan self.old };

    /// Reads bytes of an open connection to the front of `into`. What stands in `into` behind them is left open.
    fn read(&mut self, c: u32, into: &mut [u8]) -> Taken
        requires open_still { (state self.old).is_open c ≡ true }
        requires room { 0 < length into.old }
        ensures reads { Reads c into.new (state self.old) (state self.new) result }
        ensures same_plan { plan self.new ≡ plan self.old };

    /// Writes bytes off the front of `bytes` on an open connection.
    fn write(&mut self, c: u32, bytes: &[u8]) -> Taken
        requires open_still { (state self.old).is_open c ≡ true }
        requires some { 0 < length bytes.now }
        ensures writes { WritesToConnection c bytes.now (state self.old) (state self.new) result }
        ensures same_plan { plan self.new ≡ plan self.old };

    /// Closes an open connection. It can't fail.
    fn close(&mut self, c: u32)
        requires { (state self.old).is_open c ≡ true }
        ensures closes { Closes c (state self.old) (state self.new) }
        ensures same_plan { plan self.new ≡ plan self.old };
}
