//! The program's input, read as a whole, and as a script.

ghost use Rattle.std.specs.Prelude.{◌≡◌, ◌≢◌, ℕ, ◌<◌, ◌≤◌, true, length, Err, MatchResult, IfOk};
ghost use Rattle.streams.specs.Cause.{Rose};
ghost use Rattle.streams.specs.Content.{told_before, IsSpent};
ghost use Rattle.script_text.specs.Reading.{script_of_text};
ghost use Rattle.script_text.specs.Sound.{MovesItsWorkers};
ghost use Rattle.script_text.specs.TextLines.{longest_script};
ghost use Rattle.recorded_runs.specs.Recorded.{IsInputRead, EndsReading};
ghost use Rattle.recorded_runs.specs.declared.input.InputError.TheVariants.{Failed as ReadFailed, NoMemory};

use crate::fault::ServingFault;
use limits::{LONGEST_SCRIPT, MOST_READ};
use script_text::laws::scripts_are_sound;
use script_text::{Script, read_script};
use std::alloc::{AllocError, Global};
use streams::{Failed, Source};

/// Why an input couldn't be read.
#[derive(Clone, Copy)]
pub(crate) enum InputError {
    /// A read failed.
    Failed,
    /// The bytes found no room in memory.
    NoMemory,
}

impl From<AllocError> for InputError {
    ghost from_gives = { λ _ e. e ≡ NoMemory };

    fn from(_: AllocError) -> InputError {
        InputError::NoMemory
    }
}

impl From<Failed> for InputError {
    ghost from_gives = { λ _ e. e ≡ ReadFailed };

    fn from(_: Failed) -> InputError {
        InputError::Failed
    }
}

/// The script that an input is, for so many workers, and with lines of a schedule or without.
///
/// # Errors
///
/// NoScript comes exactly where the input is none, with its first fault; ReadFault only where the count of faults rose, which is as before with any other
/// result; NoMemory may come too.
pub fn read_input<S: Source>(
    alloc: Global,
    input: &mut S,
    workers: u32,
    schedule: bool,
) -> Result<Script, ServingFault>
    requires { workers ≤ 8 }
    ensures input { MatchResult result
        (λ script. IsInputRead (script_of_text workers schedule true) (S.left input.old) (S.left input.new) script)
        (λ fault. EndsReading (script_of_text workers schedule true) fault (S.left input.old)) }
    ensures moves { IfOk result (λ script. MovesItsWorkers workers script) }
    ensures fault { result ≡ Err ServingFault.ReadFault → Rose (S.faults input.old) (S.faults input.new) }
    ensures kept { result ≢ Err ServingFault.ReadFault → S.faults input.new ≡ S.faults input.old }
{
    scripts_are_sound();
    let text = read_whole(alloc, input)?;
    let script = read_script(alloc, text.as_slice(), workers, schedule, true)?;
    Ok(script)
}

/// The bytes of a source up to its end, or more than the longest script has where the end isn't reached by then.
fn read_whole<S: Source>(alloc: Global, source: &mut S) -> Result<Vec<u8>, InputError>
    ensures read { IfOk result (λ text. S.left source.old ≡ told_before text.items (S.left source.new)) }
    ensures whole { IfOk result (λ text. length text.items ≤ longest_script → IsSpent (S.left source.new)) }
    ensures later { S.faults source.old ≤ S.faults source.new }
    ensures failed { result ≡ Err InputError.Failed → Rose (S.faults source.old) (S.faults source.new) }
    ensures kept { result ≢ Err InputError.Failed → S.faults source.new ≡ S.faults source.old }
{
    let mut room = make_room(alloc)?;
    read_through(alloc, source, room.as_mut_slice())
}

/// Bytes to read into.
fn make_room(alloc: Global) -> Result<Vec<u8>, AllocError>
    ensures { IfOk result (λ room. 0 < length room.items) }
{
    vec![in alloc; 0u8; MOST_READ]
}

/// Does what `read_whole` does, by reads into `room`.
fn read_through<S: Source>(
    alloc: Global,
    source: &mut S,
    room: &mut [u8],
) -> Result<Vec<u8>, InputError>
    requires { 0 < length room.old }
    ensures read { IfOk result (λ text. S.left source.old ≡ told_before text.items (S.left source.new)) }
    ensures whole { IfOk result (λ text. length text.items ≤ longest_script → IsSpent (S.left source.new)) }
    ensures later { S.faults source.old ≤ S.faults source.new }
    ensures failed { result ≡ Err InputError.Failed → Rose (S.faults source.old) (S.faults source.new) }
    ensures kept { result ≢ Err InputError.Failed → S.faults source.new ≡ S.faults source.old }
{
    let mut text = Vec::new(alloc);
    'reads: while text.len() <= LONGEST_SCRIPT {
        let count = source.read(room)?;
        if count == 0 {
            return Ok(text);
        }
        text.extend_from_slice(&room[..count])?;
    }
    Ok(text)
}
