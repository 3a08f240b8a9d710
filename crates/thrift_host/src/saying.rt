//! How a command ends: with a status, and a line on the errors that says why.

ghost use Rattle.std.specs.Prelude.{◌≡◌, ⊤, Some, None, MatchOption, MatchResult};
ghost use Rattle.thrift_host.specs.Errors.{IsSaid, IsLineSaid, error_text};
ghost use Rattle.thrift_host.specs.Steps.{EndsAs, EndsWithoutCommand};
ghost use Rattle.thrift_host.specs.declared.status.Status.TheVariants as statuses;

use crate::status::Status;
use command_line::WordsFault;
use std::alloc::AllocError;
use streams::{Sink, write_all};

/// Ends the command with a status that has a fixed line, which goes to the errors.
pub(crate) fn end<E: Sink>(errors: &mut E, status: Status) -> Status
    ensures same { result ≡ status }
    ensures said { MatchOption (error_text status) ⊤ (λ text. IsSaid
        (record { taken_before = E.taken errors.old; taken = E.taken errors.new; faults_before = E.faults errors.old; faults = E.faults errors.new }) text) }
{
    if let Some(line) = error_line(status) {
        say(errors, line.as_bytes());
    }
    status
}

/// Ends the command with a status and this line; where there is no memory for the line, with NoMemory.
pub(crate) fn end_saying<E: Sink>(
    errors: &mut E,
    status: Status,
    line: Result<Vec<u8>, AllocError>,
) -> Status
    ensures { MatchResult line
        (λ text. (result ≡ status) × IsSaid
        (record { taken_before = E.taken errors.old; taken = E.taken errors.new; faults_before = E.faults errors.old; faults = E.faults errors.new })
        text.items)
        (λ _. EndsAs statuses.NoMemory result
        (record { taken_before = E.taken errors.old; taken = E.taken errors.new; faults_before = E.faults errors.old; faults = E.faults errors.new })) }
{
    match line {
        Ok(line) => {
            say(errors, &line);
            status
        }
        Err(_) => end(errors, Status::NoMemory),
    }
}

/// Ends the command at words that were read as none.
pub(crate) fn end_without_command<E: Sink>(errors: &mut E, fault: WordsFault) -> Status
    ensures { EndsWithoutCommand fault result
        (record { taken_before = E.taken errors.old; taken = E.taken errors.new; faults_before = E.faults errors.old; faults = E.faults errors.new }) }
{
    match fault {
        WordsFault::Usage => end(errors, Status::Usage),
        WordsFault::NoMemory => end(errors, Status::NoMemory),
    }
}

/// Hands a line to the errors, as far as they take it.
fn say<E: Sink>(errors: &mut E, line: &[u8])
    ensures { IsSaid
        (record { taken_before = E.taken errors.old; taken = E.taken errors.new; faults_before = E.faults errors.old; faults = E.faults errors.new }) line.now }
{
    let _ = write_all(errors, line);
}

/// The errors' line of a status, where it has one fixed line.
fn error_line(status: Status) -> Option<&'static str>
    ensures { MatchOption result (error_text status ≡ None) (λ line. error_text status ≡ Some line.now) }
{
    match status {
        Status::Done => Some(""),
        Status::Usage => Some("thriftd: usage\n"),
        Status::FileFault => Some("thriftd: file fault\n"),
        Status::ReadFault => Some("thriftd: read fault\n"),
        Status::WriteFault => Some("thriftd: write fault\n"),
        Status::NetFault => Some("thriftd: net fault\n"),
        Status::JournalFault => Some("thriftd: journal fault\n"),
        Status::NoMemory => Some("thriftd: no memory\n"),
        Status::Incompatible => Some("thriftd: incompatible\n"),
        Status::IdlRefused
        | Status::ScriptRefused
        | Status::BindRefused
        | Status::CallRefused
        | Status::ReplyRefused => None,
    }
}
