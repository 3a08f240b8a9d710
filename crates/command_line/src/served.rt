//! What a command serves.

ghost use Rattle.std.specs.Prelude.{◌≡◌, option_map, IfOk};
ghost use Rattle.command_line.specs.Answering.{plain_served};
ghost use Rattle.command_line.specs.Clapped.{sorted_said};
ghost use Rattle.command_line.specs.Lent.{lent_words};
ghost use Rattle.command_line.specs.Served.{default_name_given, default_of_word, file_of_word, protocol_of_word, served_by, served_said, served_with, workers_of_word};

use crate::limit_options::limits_said;
use crate::numbers::bounded_number;
use crate::pairs::command_pairs;
use crate::sorting::Sorted;
use conn_table::Limits;
use envelope::Protocol;
use service_binding::{BindWords, Word};
use std::alloc::{AllocError, Global};

/// What a command serves, and with how many workers.
#[derive(Drop)]
pub struct ServedIdl {
    /// The name of the IDL's file.
    pub idl: Word,
    /// How messages are spelled.
    pub protocol: Protocol,
    /// How many workers there are, 0 to 8.
    pub workers: u32,
    /// The services, each with the kind of its handler: 1 to 16.
    pub pairs: BindWords,
    /// The name of the service that names without a service ask for, which isn't empty, if one is given.
    pub default_service: Option<Word>,
    /// The longest payload and the read budget.
    pub limits: Limits,
}

impl ServedIdl {
    /// The name of the default service, if one is given.
    pub fn default_name(&self) -> Option<&[u8]>
        ensures { option_map (λ name. name.now) result ≡ self.now.default_service }
    {
        match &self.default_service {
            Some(word) => Some(word.as_str().as_bytes()),
            None => None,
        }
    }
}

/// The name of a file, which isn't empty.
pub(crate) fn file_of_word(alloc: Global, word: &str) -> Result<Option<Word>, AllocError>
    ensures { IfOk result (λ file. file ≡ file_of_word word.now) }
{
    if word.is_empty() {
        return Ok(None);
    }
    let word = Word::copied(alloc, word)?;
    Ok(Some(word))
}

/// The protocol that a word names.
pub(crate) fn protocol_of_word(word: &str) -> Option<Protocol>
    ensures { result ≡ protocol_of_word word.now }
{
    if word == "binary" {
        return Some(Protocol::Binary);
    }
    if word == "compact" {
        return Some(Protocol::Compact);
    }
    None
}

/// The number of workers that a word is.
pub(crate) fn workers_of_word(word: &str) -> Option<u32>
    ensures { result ≡ workers_of_word word.now }
{
    let number = bounded_number(0, 8, word)?;
    Some(number as u32)
}

/// The name of the default service, by its word, which isn't empty.
fn default_of_word(alloc: Global, word: &str) -> Result<Option<Option<Word>>, AllocError>
    ensures { IfOk result (λ name. name ≡ default_of_word word.now) }
{
    if word.is_empty() {
        return Ok(None);
    }
    let word = Word::copied(alloc, word)?;
    Ok(Some(Some(word)))
}

/// The name of the default service, by the values of its option.
fn default_name_given(alloc: Global, values: &[&str]) -> Result<Option<Option<Word>>, AllocError>
    ensures { IfOk result (λ name. name ≡ default_name_given (lent_words values.now)) }
{
    match values {
        [] => Ok(Some(None)),
        [word] => default_of_word(alloc, word),
        _ => Ok(None),
    }
}

/// What is served, by a word for the IDL, the protocol and the workers each, the words of its pairs, its default service, and its limits.
fn served_with(
    alloc: Global,
    idl: &str,
    protocol: &str,
    workers: &str,
    pairs: &[&str],
    default_service: Option<Word>,
    limits: Limits,
) -> Result<Option<ServedIdl>, AllocError>
    ensures { IfOk result (λ read. option_map plain_served read
        ≡ served_with idl.now protocol.now workers.now (lent_words pairs.now) default_service limits) }
{
    let Some(idl) = file_of_word(alloc, idl)? else {
        return Ok(None);
    };
    let Some(protocol) = protocol_of_word(protocol) else {
        return Ok(None);
    };
    let Some(workers) = workers_of_word(workers) else {
        return Ok(None);
    };
    let Some(pairs) = command_pairs(alloc, pairs)? else {
        return Ok(None);
    };
    Ok(Some(ServedIdl {
        idl,
        protocol,
        workers,
        pairs: BindWords::new(pairs),
        default_service,
        limits,
    }))
}

/// What is served, by the words in their places.
fn served_by(
    alloc: Global,
    words: &[&str],
    default_service: Option<Word>,
    limits: Limits,
) -> Result<Option<ServedIdl>, AllocError>
    ensures { IfOk result (λ read. option_map plain_served read ≡ served_by (lent_words words.now) default_service limits) }
{
    let Some((idl, rest)) = words.split_first() else {
        return Ok(None);
    };
    let Some((protocol, rest)) = rest.split_first() else {
        return Ok(None);
    };
    let Some((workers, pairs)) = rest.split_first() else {
        return Ok(None);
    };
    served_with(
        alloc,
        idl,
        protocol,
        workers,
        pairs,
        default_service,
        limits,
    )
}

/// What is served, by what sorted words say.
pub(crate) fn served_said(
    alloc: Global,
    sorted: &Sorted<'_>,
) -> Result<Option<ServedIdl>, AllocError>
    ensures { IfOk result (λ read. option_map plain_served read ≡ served_said (sorted_said sorted.now)) }
{
    let Some(limits) = limits_said(sorted) else {
        return Ok(None);
    };
    let Some(default_service) = default_name_given(alloc, sorted.beside("default"))? else {
        return Ok(None);
    };
    served_by(alloc, sorted.beside(""), default_service, limits)
}
