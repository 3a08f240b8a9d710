//! A check: the text of an IDL's schema.

ghost use Rattle.std.specs.Prelude.{◌≡◌, ◌≢◌, true, ℕ, List, Option, MatchResult};
ghost use Rattle.streams.specs.Cause.{Rose};
ghost use Rattle.streams.specs.Files.{File};
ghost use Rattle.idl_check.specs.Verdicts.{IsIdlVerdict, IsSchemaTextOf, IsUnreadIdl};
ghost use Rattle.idl_check.specs.Telling.{TellsWhy, is_file_fault};
ghost use Rattle.thrift_host.specs.Checks.{MeansCheck, SaysCheck};
ghost use Rattle.thrift_host.specs.Steps.{EndsWithout, EndsWriting};

use crate::saying::{end, end_saying};
use crate::status::Status;
use idl_check::{NoSchema, program_text};
use std::alloc::Global;
use streams::{Files, Sink, write_all};

/// Checks the IDL of this name: the text of its schema goes to the output.
pub(crate) fn check<F: Files, K: Sink, E: Sink>(
    alloc: Global,
    files: &mut F,
    output: &mut K,
    errors: &mut E,
    idl: &str,
) -> Status
    ensures means { (left : Option (List ℕ)) → MeansCheck (F.files files.old) idl.now result
        (record { left_before = left; left = left; taken_before = K.taken output.old; taken = K.taken output.new }) }
    ensures said { SaysCheck (F.files files.old) idl.now result
        (record { taken_before = E.taken errors.old; taken = E.taken errors.new; faults_before = E.faults errors.old; faults = E.faults errors.new }) }
    ensures files { F.files files.new ≡ F.files files.old }
    ensures sinks { F.sink_faults files.new ≡ F.sink_faults files.old }
    ensures file_fault { result ≡ Status.FileFault → Rose (F.faults files.old) (F.faults files.new) }
    ensures read_fault { result ≡ Status.ReadFault → ⊥ }
    ensures write_fault { result ≡ Status.WriteFault → Rose (K.faults output.old) (K.faults output.new) }
    ensures files_kept { result ≢ Status.FileFault → F.faults files.new ≡ F.faults files.old }
    ensures output_kept { result ≢ Status.WriteFault → K.faults output.new ≡ K.faults output.old }
{
    match program_text(alloc, files, idl) {
        Ok(text) => end_text(output, errors, &text),
        Err(reason) => end_without_schema(alloc, errors, reason),
    }
}

/// Ends the command with a text for the output.
pub(crate) fn end_text<K: Sink, E: Sink>(output: &mut K, errors: &mut E, text: &[u8]) -> Status
    ensures ends { EndsWriting result (K.taken output.old) (K.taken output.new) text.now
        (record { taken_before = E.taken errors.old; taken = E.taken errors.new; faults_before = E.faults errors.old; faults = E.faults errors.new }) }
    ensures write_fault { result ≡ Status.WriteFault → Rose (K.faults output.old) (K.faults output.new) }
    ensures output_kept { result ≢ Status.WriteFault → K.faults output.new ≡ K.faults output.old }
{
    match write_all(output, text) {
        Ok(()) => end(errors, Status::Done),
        Err(_) => end(errors, Status::WriteFault),
    }
}

/// Ends the command at an IDL that has no schema.
pub(crate) fn end_without_schema<E: Sink>(alloc: Global, errors: &mut E, reason: NoSchema) -> Status
    ensures { EndsWithout reason result
        (record { taken_before = E.taken errors.old; taken = E.taken errors.new; faults_before = E.faults errors.old; faults = E.faults errors.new }) }
{
    match reason {
        NoSchema::Refused(refusal) => end_saying(
            errors,
            Status::IdlRefused,
            refusal.error_line(alloc),
        ),
        NoSchema::FileFault => end(errors, Status::FileFault),
        NoSchema::NoMemory => end(errors, Status::NoMemory),
    }
}
