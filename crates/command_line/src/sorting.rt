//! The words behind a command, sorted by `clap` into options and others.

ghost use Rattle.std.specs.Prelude.{◌≡◌, false, map, option_map, string_bytes, IfOk, MatchOption, []};
ghost use Rattle.std.specs.List.{list_all};
ghost use Rattle.clap.specs.Words.{app_of, fault_of, is_simple_and_free, rule_of, kind_of, with_rule, HasKind, Kinds};
ghost use Rattle.command_line.specs.Clapped.{bare_app, is_fit, option_rule, plain_words_rule, sorted_said, with_options};
ghost use Rattle.command_line.specs.Lent.{lent_words};
ghost use Rattle.command_line.specs.Options.{has_option, said_behind};

use clap::error::ErrorKind;
use clap::{Arg, ArgAction, ArgMatches, Command, Error};
use std::alloc::{AllocError, Global};

/// The items, or no items.
fn items_or_none<T>(items: Option<&[T]>) -> &[T]
    ensures { MatchOption items.entry (result.now ≡ []) (λ lent. result.now ≡ lent.now) }
{
    match items {
        Some(items) => items,
        None => &[],
    }
}

/// Words behind a command, sorted.
#[derive(Drop)]
pub(crate) struct Sorted<'a> {
    // The words that are no options have the empty id, an option's value has the option's name.
    matches: ArgMatches<'a>,
}

impl<'a> Sorted<'a> {
    /// The value of an option of this name, if it has one; the words that are no options, where the name is empty.
    pub(crate) fn beside(&self, name: &str) -> &[&'a str]
        ensures { lent_words result.now ≡ sorted_said self.now name.now }
    {
        items_or_none(self.matches.get_raw(name))
    }
}

/// Whether a word may be handed to `clap`: it begins with `--` and goes on, or doesn't begin with `-`.
fn is_fit(word: &str) -> bool
    ensures { result ≡ is_fit word.now }
{
    match word.as_bytes() {
        [b'-', b'-', _, ..] => true,
        [b'-', ..] => false,
        _ => true,
    }
}

/// Whether all words may be handed to `clap`.
fn are_fit(words: &[String]) -> bool
    ensures { result ≡ list_all is_fit (map string_bytes words.now) }
{
    for word in words {
        if !is_fit(word.as_str()) {
            return false;
        }
    }
    true
}

/// The words that are no options, as `clap` knows them.
fn plain_words<'a>(alloc: Global) -> Arg<'a>
    ensures rule { rule_of result ≡ plain_words_rule }
    ensures local { result.global ≡ false }
{
    Arg::new(alloc, "").action(ArgAction::Append)
}

/// An option with a value, as `clap` knows it.
fn valued_option<'a>(alloc: Global, name: &'a str) -> Arg<'a>
    ensures rule { rule_of result ≡ option_rule name.now }
    ensures local { result.global ≡ false }
{
    Arg::new(alloc, name).long(name).action(ArgAction::Set)
}

/// A command without options.
fn bare_command<'a>(alloc: Global) -> Result<Command<'a>, AllocError>
    ensures { IfOk result (λ command. app_of command ≡ bare_app) }
{
    let command = Command::new(alloc, "thriftd")
        .no_binary_name(true)
        .disable_help_flag(true)
        .disable_version_flag(true);
    command.arg(plain_words(alloc))
}

/// A command with options of these names.
fn command_with<'a>(alloc: Global, names: &'a [&'a str]) -> Result<Command<'a>, AllocError>
    ensures { IfOk result (λ command. app_of command ≡ with_options bare_app (lent_words names.now)) }
{
    let mut command = bare_command(alloc)?;
    for name in names {
        command = command.arg(valued_option(alloc, name))?;
    }
    Ok(command)
}

/// Whether `clap` ran out of memory.
fn is_want_of_memory(error: &Error) -> bool
    ensures { result ≡ false → kind_of error.now ≡ ErrorKind.OutOfMemory → ⊥ }
{
    matches!(error.kind(), ErrorKind::OutOfMemory)
}

/// The words behind a command that has options of these names, sorted; none where another word begins with `-`, an option stands twice, or one
/// has no value.
pub(crate) fn sorted_words<'a>(
    alloc: Global,
    names: &'a [&'a str],
    words: &'a [String],
) -> Result<Option<Sorted<'a>>, AllocError>
    requires { has_option (lent_words names.now) [] ≡ false }
    ensures { IfOk result (λ sorted. option_map sorted_said sorted ≡ said_behind (lent_words names.now) (map string_bytes words.now)) }
{
    if !are_fit(words) {
        return Ok(None);
    }
    let command = command_with(alloc, names)?;
    match command.try_get_matches_from(words) {
        Ok(matches) => Ok(Some(Sorted { matches })),
        Err(error) => {
            if is_want_of_memory(&error) {
                return Err(AllocError);
            }
            Ok(None)
        }
    }
}
