//! Notes what calls answered. Nothing of it runs.

ghost use Rattle.std.specs.Prelude.{◌≡◌, ◌++◌, ◌||◌, length};
ghost use Rattle.outside.specs.Faults.{MovesWithin};
ghost use Rattle.outside.specs.Pipes.{is_end};
ghost use Rattle.outside.specs.Reading.{marks_of_read};
ghost use Rattle.outside.specs.Writing.{marks_of_write};
ghost use Rattle.told_links.specs.Noted.{marks_noted, bytes_noted, end_noted};
ghost use Rattle.told_links.specs.Telling.{marks_of_ask};

use crate::note::Note;
use lists::{Appended, NotedBytes};
use outside::{Hint, Taken};
use streams::Failed;

/// Notes what an answer opened.
#[inline(always)]
pub(crate) fn note_ask(tape: &mut Appended<Note>, answer: &Result<Hint, Failed>)
    ensures { marks_noted tape.new ≡ marks_noted tape.old ++ marks_of_ask answer.now }
{
    match answer {
        Ok(Hint::Opened(c)) => tape.push(&Note::Opened(*c)),
        Ok(Hint::Readable(_)) => {}
        Ok(Hint::Writable(_)) => {}
        Ok(Hint::Woken) => {}
        Ok(Hint::Over) => {}
        Err(_) => {}
    }
}

/// Notes what a read answered, of the bytes that were lent to it as they are now.
#[inline(always)]
pub(crate) fn note_read(tape: &mut Appended<Note>, c: u32, into: &[u8], taken: Taken)
    requires { MovesWithin (length into.now) taken }
    ensures { marks_noted tape.new ≡ marks_noted tape.old ++ marks_of_read c into.now taken }
{
    match taken {
        Taken::Bytes(count) => tape.push(&Note::Read(c, NotedBytes::of(&into[..count]))),
        Taken::End => tape.push(&Note::Ended(c)),
        Taken::NotYet => {}
        Taken::Failed => tape.push(&Note::ReadFailed(c)),
        Taken::NoMemory => {}
    }
}

/// Notes what a write answered, to which these bytes were offered.
#[inline(always)]
pub(crate) fn note_write(tape: &mut Appended<Note>, c: u32, bytes: &[u8], taken: Taken)
    requires { MovesWithin (length bytes.now) taken }
    ensures { marks_noted tape.new ≡ marks_noted tape.old ++ marks_of_write c bytes.now taken }
{
    match taken {
        Taken::Bytes(count) => tape.push(&Note::Wrote(c, NotedBytes::of(&bytes[..count]))),
        Taken::End => {}
        Taken::NotYet => {}
        Taken::Failed => tape.push(&Note::WriteFailed(c)),
        Taken::NoMemory => {}
    }
}

/// Notes whether a read that was lent so much, and gave so much, answered the end.
#[inline(always)]
#[tactic(auto, using(crate::proofs::Adding::end_added))]
pub(crate) fn note_end(ends: &mut Appended<()>, lent: usize, count: usize)
    ensures { end_noted ends.new ≡ (end_noted ends.old || is_end lent count) }
{
    if lent > 0 && count == 0 {
        ends.push(&());
    }
}

/// Notes bytes that went one way.
#[inline(always)]
#[tactic(auto, using(crate::proofs::Adding::bytes_added))]
pub(crate) fn note_bytes(noted: &mut Appended<NotedBytes>, bytes: &[u8])
    ensures { bytes_noted noted.new ≡ bytes_noted noted.old ++ bytes.now }
{
    noted.push(&NotedBytes::of(bytes));
}
