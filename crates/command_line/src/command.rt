//! The command, read from its words.

ghost use Rattle.std.specs.Prelude.{◌≡◌, map, option_map, string_bytes, IfOk};
ghost use Rattle.command_line.specs.Answering.{AnswersWords, plain_asking, plain_command, plain_served};
ghost use Rattle.command_line.specs.Bounds.{KeepsBounds};
ghost use Rattle.command_line.specs.Clapped.{sorted_said};
ghost use Rattle.command_line.specs.Lent.{lent_words};
ghost use Rattle.command_line.specs.Words.{call_behind, calls, check_behind, check_said, command_named, compat_behind, compat_by, compat_said, compat_with, file_alone, serve_behind, serve_said, serve_with, served_behind, words_of, workload_behind, workload_by, workload_said, workload_with, PlainCommand, rehearses, records};

use crate::calling::{AskedCall, asking_said};
use crate::flags::flagless_words;
use crate::numbers::{bounded_number, one_number, seed_of_word};
use crate::options::{CALL_FLAGS, CALL_OPTIONS, NO_OPTIONS, SERVE_OPTIONS, SERVED_OPTIONS};
use crate::served::{ServedIdl, file_of_word, served_said, workers_of_word};
use crate::sorting::{Sorted, sorted_words};
use service_binding::Word;
use std::alloc::{AllocError, Global};
use thiserror::Error;

/// The IDLs that are compared.
#[derive(Drop)]
pub struct ComparedIdls {
    /// The name of the old one.
    pub old: Word,
    /// The name of the one that comes after it.
    pub new: Word,
}

/// What the words ask for.
#[derive(Drop)]
pub enum Command {
    /// The IDL of this name is checked, and its schema printed.
    Check(Word),
    /// An IDL is compared with the one that comes after it.
    Compat(ComparedIdls),
    /// The script that the input is runs without threads.
    Rehearse(ServedIdl),
    /// The script that the input is runs with a loop and workers.
    Record(ServedIdl),
    /// Connections to a port of this machine are served.
    Serve {
        /// What is served.
        served: ServedIdl,
        /// The port, at least 1.
        port: u16,
        /// How many connections are accepted, 1 to 1,000,000.
        accept: u32,
        /// The name of the journal's file.
        journal: Word,
    },
    /// A generated script runs with a loop and workers.
    Workload {
        /// What the script is generated from.
        seed: u64,
        /// How many frames it has, 1 to 1,000,000.
        size: u32,
        /// How many workers there are, 0 to 8.
        workers: u32,
    },
    /// A port is called.
    Call(AskedCall),
}

/// Why no command was read.
#[derive(Clone, Copy, Debug, PartialEq, Eq, Error)]
pub enum WordsFault {
    /// The words are no command.
    #[error("the words are no command")]
    Usage,
    /// Memory ran out.
    #[error("out of memory")]
    NoMemory,
}

/// The file that one word alone names.
fn file_alone(alloc: Global, words: &[&str]) -> Result<Option<Word>, AllocError>
    ensures { IfOk result (λ file. file ≡ file_alone (lent_words words.now)) }
{
    match words {
        [word] => file_of_word(alloc, word),
        _ => Ok(None),
    }
}

/// Makes `check` of what sorted words say.
fn check_said(alloc: Global, sorted: &Sorted<'_>) -> Result<Option<Command>, AllocError>
    ensures { IfOk result (λ read. option_map plain_command read ≡ check_said (sorted_said sorted.now)) }
{
    match file_alone(alloc, sorted.beside(""))? {
        Some(idl) => Ok(Some(Command::Check(idl))),
        None => Ok(None),
    }
}

/// Makes `compat` of a word for each of the two.
fn compat_with(alloc: Global, old: &str, new: &str) -> Result<Option<Command>, AllocError>
    ensures { IfOk result (λ read. option_map plain_command read ≡ compat_with old.now new.now) }
{
    let Some(old) = file_of_word(alloc, old)? else {
        return Ok(None);
    };
    let Some(new) = file_of_word(alloc, new)? else {
        return Ok(None);
    };
    Ok(Some(Command::Compat(ComparedIdls { old, new })))
}

/// Makes `compat` of the words in their places.
fn compat_by(alloc: Global, words: &[&str]) -> Result<Option<Command>, AllocError>
    ensures { IfOk result (λ read. option_map plain_command read ≡ compat_by (lent_words words.now)) }
{
    match words {
        [old, new] => compat_with(alloc, old, new),
        _ => Ok(None),
    }
}

/// Makes `compat` of what sorted words say.
fn compat_said(alloc: Global, sorted: &Sorted<'_>) -> Result<Option<Command>, AllocError>
    ensures { IfOk result (λ read. option_map plain_command read ≡ compat_said (sorted_said sorted.now)) }
{
    compat_by(alloc, sorted.beside(""))
}

/// Makes `serve` of the values of its own options.
fn serve_with(
    alloc: Global,
    served: ServedIdl,
    ports: &[&str],
    accepts: &[&str],
    journals: &[&str],
) -> Result<Option<Command>, AllocError>
    ensures { IfOk result (λ read. option_map plain_command read
        ≡ serve_with (plain_served served) (lent_words ports.now) (lent_words accepts.now) (lent_words journals.now)) }
{
    let Some(port) = one_number(1, 65_535, ports) else {
        return Ok(None);
    };
    let Some(accept) = one_number(1, 1_000_000, accepts) else {
        return Ok(None);
    };
    let Some(journal) = file_alone(alloc, journals)? else {
        return Ok(None);
    };
    Ok(Some(Command::Serve {
        served,
        port: port as u16,
        accept: accept as u32,
        journal,
    }))
}

/// Makes `serve` of what sorted words say.
fn serve_said(alloc: Global, sorted: &Sorted<'_>) -> Result<Option<Command>, AllocError>
    ensures { IfOk result (λ read. option_map plain_command read ≡ serve_said (sorted_said sorted.now)) }
{
    let Some(served) = served_said(alloc, sorted)? else {
        return Ok(None);
    };
    serve_with(
        alloc,
        served,
        sorted.beside("listen"),
        sorted.beside("accept"),
        sorted.beside("journal"),
    )
}

/// Makes `workload` of a word for the seed, the size and the workers each.
fn workload_with(seed: &str, size: &str, workers: &str) -> Option<Command>
    ensures { option_map plain_command result ≡ workload_with seed.now size.now workers.now }
{
    let seed = seed_of_word(seed)?;
    let size = bounded_number(1, 1_000_000, size)?;
    let workers = workers_of_word(workers)?;
    Some(Command::Workload {
        seed,
        size: size as u32,
        workers,
    })
}

/// Makes `workload` of the words in their places.
fn workload_by(words: &[&str]) -> Option<Command>
    ensures { option_map plain_command result ≡ workload_by (lent_words words.now) }
{
    match words {
        [seed, size, workers] => workload_with(seed, size, workers),
        _ => None,
    }
}

/// What the words behind `check` are.
fn check_behind(alloc: Global, words: &[String]) -> Result<Option<Command>, AllocError>
    ensures { IfOk result (λ read. option_map plain_command read ≡ check_behind (map string_bytes words.now)) }
{
    match sorted_words(alloc, NO_OPTIONS.as_slice(), words)? {
        Some(sorted) => check_said(alloc, &sorted),
        None => Ok(None),
    }
}

/// What the words behind `compat` are.
fn compat_behind(alloc: Global, words: &[String]) -> Result<Option<Command>, AllocError>
    ensures { IfOk result (λ read. option_map plain_command read ≡ compat_behind (map string_bytes words.now)) }
{
    match sorted_words(alloc, NO_OPTIONS.as_slice(), words)? {
        Some(sorted) => compat_said(alloc, &sorted),
        None => Ok(None),
    }
}

/// What the words behind `rehearse` and `record` are.
fn served_behind(alloc: Global, words: &[String]) -> Result<Option<ServedIdl>, AllocError>
    ensures { IfOk result (λ read. option_map plain_served read ≡ served_behind (map string_bytes words.now)) }
{
    match sorted_words(alloc, SERVED_OPTIONS.as_slice(), words)? {
        Some(sorted) => served_said(alloc, &sorted),
        None => Ok(None),
    }
}

/// What the words behind `serve` are.
fn serve_behind(alloc: Global, words: &[String]) -> Result<Option<Command>, AllocError>
    ensures { IfOk result (λ read. option_map plain_command read ≡ serve_behind (map string_bytes words.now)) }
{
    match sorted_words(alloc, SERVE_OPTIONS.as_slice(), words)? {
        Some(sorted) => serve_said(alloc, &sorted),
        None => Ok(None),
    }
}

/// What the words behind `workload` are.
fn workload_behind(alloc: Global, words: &[String]) -> Result<Option<Command>, AllocError>
    ensures { IfOk result (λ read. option_map plain_command read ≡ workload_behind (map string_bytes words.now)) }
{
    match sorted_words(alloc, NO_OPTIONS.as_slice(), words)? {
        Some(sorted) => Ok(workload_by(sorted.beside(""))),
        None => Ok(None),
    }
}

/// What the words behind `call` are.
fn call_behind(alloc: Global, words: &[String]) -> Result<Option<AskedCall>, AllocError>
    ensures { IfOk result (λ read. option_map plain_asking read ≡ call_behind (map string_bytes words.now)) }
{
    let Some(words) = flagless_words(alloc, CALL_FLAGS.as_slice(), words)? else {
        return Ok(None);
    };
    match sorted_words(alloc, CALL_OPTIONS.as_slice(), words.as_slice())? {
        Some(sorted) => asking_said(alloc, &sorted),
        None => Ok(None),
    }
}

/// What is asked of a port.
fn called(asked: Option<AskedCall>) -> Option<Command>
    ensures { option_map plain_command result ≡ option_map calls (option_map plain_asking asked) }
{
    Some(Command::Call(asked?))
}

/// What is served is rehearsed.
fn rehearsed(served: Option<ServedIdl>) -> Option<Command>
    ensures { option_map plain_command result ≡ option_map rehearses (option_map plain_served served) }
{
    Some(Command::Rehearse(served?))
}

/// What is served is recorded.
fn recorded(served: Option<ServedIdl>) -> Option<Command>
    ensures { option_map plain_command result ≡ option_map records (option_map plain_served served) }
{
    Some(Command::Record(served?))
}

/// The command of this name, with the words behind it.
fn command_named(alloc: Global, name: &str, words: &[String]) -> Result<Option<Command>, AllocError>
    ensures { IfOk result (λ read. option_map plain_command read ≡ command_named name.now (map string_bytes words.now)) }
{
    if name == "check" {
        return check_behind(alloc, words);
    }
    if name == "rehearse" {
        return Ok(rehearsed(served_behind(alloc, words)?));
    }
    if name == "record" {
        return Ok(recorded(served_behind(alloc, words)?));
    }
    if name == "serve" {
        return serve_behind(alloc, words);
    }
    if name == "workload" {
        return workload_behind(alloc, words);
    }
    if name == "compat" {
        return compat_behind(alloc, words);
    }
    if name == "call" {
        return Ok(called(call_behind(alloc, words)?));
    }
    Ok(None)
}

/// The command that the words are.
fn command_of(alloc: Global, words: &[String]) -> Result<Command, WordsFault>
    ensures { AnswersWords result (words_of (map string_bytes words.now)) }
{
    let Some((name, behind)) = words.split_first() else {
        return Err(WordsFault::Usage);
    };
    match command_named(alloc, name.as_str(), behind) {
        Ok(Some(read)) => Ok(read),
        Ok(None) => Err(WordsFault::Usage),
        Err(AllocError) => Err(WordsFault::NoMemory),
    }
}

/// The command that the words are. Usage comes exactly where they are no command.
pub fn read_words(alloc: Global, words: &[String]) -> Result<Command, WordsFault>
    ensures answers { AnswersWords result (words_of (map string_bytes words.now)) }
    ensures bounds { IfOk result (λ command. KeepsBounds (plain_command command)) }
{
    command_of(alloc, words)
}
