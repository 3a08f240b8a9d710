//! What is read, written and closed of a script that links serve.

ghost use Rattle.std.specs.Prelude.{◌≡◌, ℕ, ◌≤◌, true, List, Option, length, take, OnOk};
ghost use Rattle.outside.specs.Reading.{bytes_read};
ghost use Rattle.outside.specs.declared.answers.Taken.TheVariants.{Bytes as TakesBytes, End, Failed, NotYet};
ghost use Rattle.script_links.specs.ServedScript.{link_at, is_open_at};
ghost use Rattle.script_links.specs.Plain.{left_by_read, left_by_write, left_by_close, taken_by_read, taken_by_rules, oldest_of, MayComeTo, IsFrontOfPiece};
ghost use Rattle.script_links.specs.Kept.{served_of, IsKeptServing, HasEndRoom, HasMarkRoom};

use crate::serving::ScriptServing;
use outside::Taken;
use std::alloc::AllocError;
use streams::MarkAt;

impl ScriptServing {
    /// Reads of connection `c`, which is open.
    pub fn read(&mut self, c: u32, into: &mut [u8]) -> Taken
        requires kept { IsKeptServing self.old }
        requires open_still { is_open_at (served_of self.old).links c ≡ true }
        ensures comes { MayComeTo (taken_by_read (length into.old) (link_at (served_of self.old).links c)) result }
        ensures front { IsFrontOfPiece result into.new (oldest_of (link_at (served_of self.old).links c)) }
        ensures after { served_of self.new ≡ left_by_read c (length into.old) (bytes_read into.new result) result (served_of self.old) }
        ensures kept { IsKeptServing self.new }
    {
        match self.links.answer_read(c as usize, into.len()) {
            Taken::Bytes(count) => self.read_bytes(c, into, count),
            Taken::End => self.mark_end(c),
            Taken::Failed => self.fail_read(c),
            Taken::NotYet => Taken::NotYet,
            Taken::NoMemory => Taken::NoMemory,
        }
    }

    /// Reads so many bytes of the oldest piece of connection `c`.
    fn read_bytes(&mut self, c: u32, into: &mut [u8], count: usize) -> Taken
        requires kept { IsKeptServing self.old }
        requires open_still { is_open_at (served_of self.old).links c ≡ true }
        requires comes { taken_by_read (length into.old) (link_at (served_of self.old).links c) ≡ TakesBytes count }
        ensures comes { MayComeTo (TakesBytes count) result }
        ensures front { IsFrontOfPiece result into.new (oldest_of (link_at (served_of self.old).links c)) }
        ensures after { served_of self.new ≡ left_by_read c (length into.old) (bytes_read into.new result) result (served_of self.old) }
        ensures kept { IsKeptServing self.new }
    {
        let lent = into.len();
        let Ok(bytes) = self.links.copy_oldest(self.alloc, c as usize, count) else {
            return Taken::NoMemory;
        };
        let Ok(()) = self.make_room(count) else {
            return Taken::NoMemory;
        };
        fill(into, bytes.as_slice());
        self.links.read(c as usize, count);
        self.tape.push(MarkAt::Read(c, bytes.as_slice()));
        self.lengths.push_reserved(lent);
        Taken::Bytes(count)
    }

    /// Takes room for a mark of so many bytes and its length.
    fn make_room(&mut self, bytes: usize) -> Result<(), AllocError>
        requires kept { IsKeptServing self.old }
        ensures same { served_of self.new ≡ served_of self.old }
        ensures links { self.new.links ≡ self.old.links }
        ensures room { OnOk result (HasMarkRoom bytes self.new) }
        ensures kept { IsKeptServing self.new }
    {
        let most = 3 * self.links.items.len();
        self.tape.reserve(1 + most)?;
        self.tape.reserve_bytes(bytes)?;
        self.lengths.reserve(1)
    }

    /// Takes room for the mark of an end or of a fault, where there is none yet.
    fn make_end_room(&mut self, c: u32) -> Result<(), AllocError>
        requires kept { IsKeptServing self.old }
        requires open_still { is_open_at (served_of self.old).links c ≡ true }
        ensures same { served_of self.new ≡ served_of self.old }
        ensures links { self.new.links ≡ self.old.links }
        ensures room { OnOk result (HasEndRoom c self.new) }
        ensures kept { IsKeptServing self.new }
    {
        if self.links.is_fit_for_end(c as usize) {
            return Ok(());
        }
        self.make_room(0)
    }

    /// Marks the end of connection `c`.
    fn mark_end(&mut self, c: u32) -> Taken
        requires kept { IsKeptServing self.old }
        requires open_still { is_open_at (served_of self.old).links c ≡ true }
        ensures comes { MayComeTo End result }
        ensures front { (into : List ℕ) (piece : Option (List ℕ)) → IsFrontOfPiece result into piece }
        ensures after { (lent : ℕ) (bytes : List ℕ) → served_of self.new ≡ left_by_read c lent bytes result (served_of self.old) }
        ensures kept { IsKeptServing self.new }
    {
        let Ok(()) = self.make_end_room(c) else {
            return Taken::NoMemory;
        };
        self.links.end(c as usize);
        self.tape.push(MarkAt::Ended(c));
        Taken::End
    }

    /// A read of connection `c`, which is open, fails: that is marked and counted.
    pub fn fail_read(&mut self, c: u32) -> Taken
        requires kept { IsKeptServing self.old }
        requires open_still { is_open_at (served_of self.old).links c ≡ true }
        ensures comes { MayComeTo Failed result }
        ensures front { (into : List ℕ) (piece : Option (List ℕ)) → IsFrontOfPiece result into piece }
        ensures after { (lent : ℕ) (bytes : List ℕ) → served_of self.new ≡ left_by_read c lent bytes result (served_of self.old) }
        ensures kept { IsKeptServing self.new }
    {
        let Ok(()) = self.make_end_room(c) else {
            return Taken::NoMemory;
        };
        self.links.fail(c as usize);
        self.tape.push(MarkAt::ReadFailed(c));
        Taken::Failed
    }

    /// Writes on connection `c`, which is open.
    pub fn write(&mut self, c: u32, bytes: &[u8]) -> Taken
        requires kept { IsKeptServing self.old }
        requires open_still { is_open_at (served_of self.old).links c ≡ true }
        ensures comes { MayComeTo (taken_by_rules (length bytes.now) (link_at (served_of self.old).links c).rules) result }
        ensures after { served_of self.new ≡ left_by_write c bytes.now result (served_of self.old) }
        ensures kept { IsKeptServing self.new }
    {
        match self.links.answer_write(c as usize, bytes.len()) {
            Taken::Bytes(count) => self.write_bytes(c, bytes, count),
            Taken::Failed => self.fail_write(c, bytes),
            Taken::NotYet => self.block(c, bytes),
            Taken::End => Taken::End,
            Taken::NoMemory => Taken::NoMemory,
        }
    }

    /// Writes so many of these bytes on connection `c`.
    fn write_bytes(&mut self, c: u32, bytes: &[u8], count: usize) -> Taken
        requires kept { IsKeptServing self.old }
        requires open_still { is_open_at (served_of self.old).links c ≡ true }
        requires within { count ≤ length bytes.now }
        ensures comes { MayComeTo (TakesBytes count) result }
        ensures after { served_of self.new ≡ left_by_write c bytes.now result (served_of self.old) }
        ensures kept { IsKeptServing self.new }
    {
        let (part, _) = bytes.split_at(count);
        let Ok(()) = self.make_room(count) else {
            return Taken::NoMemory;
        };
        let Ok(()) = self.links.write(c as usize, part) else {
            return Taken::NoMemory;
        };
        self.tape.push(MarkAt::Wrote(c, part));
        self.lengths.push_reserved(bytes.len());
        Taken::Bytes(count)
    }

    /// A write of these bytes on connection `c`, which is open, fails: that is marked and counted, and the next rule is used up.
    pub fn fail_write(&mut self, c: u32, bytes: &[u8]) -> Taken
        requires kept { IsKeptServing self.old }
        requires open_still { is_open_at (served_of self.old).links c ≡ true }
        ensures comes { MayComeTo Failed result }
        ensures after { served_of self.new ≡ left_by_write c bytes.now result (served_of self.old) }
        ensures kept { IsKeptServing self.new }
    {
        let Ok(()) = self.make_end_room(c) else {
            return Taken::NoMemory;
        };
        self.links.fail_by_rule(c as usize);
        self.tape.push(MarkAt::WriteFailed(c));
        Taken::Failed
    }

    /// A write on connection `c` isn't possible yet, which is told next.
    fn block(&mut self, c: u32, bytes: &[u8]) -> Taken
        requires kept { IsKeptServing self.old }
        requires open_still { is_open_at (served_of self.old).links c ≡ true }
        ensures comes { MayComeTo NotYet result }
        ensures after { served_of self.new ≡ left_by_write c bytes.now result (served_of self.old) }
        ensures kept { IsKeptServing self.new }
    {
        let Ok(()) = self.blocked.push_back(c) else {
            return Taken::NoMemory;
        };
        self.links.use_rule(c as usize);
        Taken::NotYet
    }

    /// Closes connection `c`, which is open; takes no memory.
    pub fn close(&mut self, c: u32)
        requires kept { IsKeptServing self.old }
        requires open_still { is_open_at (served_of self.old).links c ≡ true }
        ensures after { served_of self.new ≡ left_by_close c (served_of self.old) }
        ensures kept { IsKeptServing self.new }
    {
        self.links.close(c as usize);
        self.tape.push(MarkAt::Closed(c));
    }
}

/// Puts these bytes at the front of `into`.
fn fill(into: &mut [u8], bytes: &[u8])
    requires { length bytes.now ≤ length into.old }
    ensures { take (length bytes.now) into.new ≡ bytes.now }
{
    into[..bytes.len()].copy_from_slice(bytes);
}
