//! What `call` asks of a port.

ghost use Rattle.std.specs.Prelude.{◌≡◌, option_map, IfOk};
ghost use Rattle.command_line.specs.Answering.{plain_asking};
ghost use Rattle.command_line.specs.Calls.{asking_by, asking_said, is_set};
ghost use Rattle.command_line.specs.Clapped.{sorted_said};
ghost use Rattle.command_line.specs.Lent.{lent_words};

use crate::numbers::one_number;
use crate::served::{file_of_word, protocol_of_word};
use crate::sorting::Sorted;
use envelope::Protocol;
use service_binding::Word;
use std::alloc::{AllocError, Global};

/// What is asked of a port.
#[derive(Drop)]
pub struct AskedCall {
    /// The name of the IDL's file.
    pub idl: Word,
    /// How messages are spelled.
    pub protocol: Protocol,
    /// The name of the service.
    pub name: Word,
    /// The method.
    pub method: Word,
    /// The text of the arguments' struct.
    pub args: Word,
    /// Whether the service's name stands in front of the method, with `:` between them.
    pub multiplexed: bool,
    /// The port, at least 1.
    pub port: u16,
}

/// Whether a flag stands among the words, by what is beside it.
fn is_set(values: &[&str]) -> bool
    ensures { result ≡ is_set (lent_words values.now) }
{
    !values.is_empty()
}

/// What is asked, by the words in their places.
fn asking_by(
    alloc: Global,
    words: &[&str],
    multiplexed: bool,
    port: u16,
) -> Result<Option<AskedCall>, AllocError>
    ensures { IfOk result (λ read. option_map plain_asking read ≡ asking_by (lent_words words.now) multiplexed port) }
{
    let [idl, protocol, name, method, args] = words else {
        return Ok(None);
    };
    let Some(idl) = file_of_word(alloc, idl)? else {
        return Ok(None);
    };
    let Some(protocol) = protocol_of_word(protocol) else {
        return Ok(None);
    };
    Ok(Some(AskedCall {
        idl,
        protocol,
        name: Word::copied(alloc, name)?,
        method: Word::copied(alloc, method)?,
        args: Word::copied(alloc, args)?,
        multiplexed,
        port,
    }))
}

/// What is asked, by what sorted words say.
pub(crate) fn asking_said(
    alloc: Global,
    sorted: &Sorted<'_>,
) -> Result<Option<AskedCall>, AllocError>
    ensures { IfOk result (λ read. option_map plain_asking read ≡ asking_said (sorted_said sorted.now)) }
{
    let Some(port) = one_number(1, 65_535, sorted.beside("to")) else {
        return Ok(None);
    };
    let multiplexed = is_set(sorted.beside("multiplexed"));
    asking_by(alloc, sorted.beside(""), multiplexed, port as u16)
}
