//! Names of services with the kinds of their handlers.

ghost use Rattle.std.specs.Prelude.{◌≡◌, option_map, IfOk};
ghost use Rattle.service_binding.specs.Equals.{at_equals};
ghost use Rattle.service_binding.specs.Pairs.{pair_of_parts, pair_of_word};

use crate::kinds::handler_kind;
use crate::word::Word;
use call_rules::Kind;
use std::alloc::{AllocError, Global};
use std::marker::Model;

/// Names of services, each with the kind of the handler that serves it; a list.
#[derive(Drop)]
pub struct BindWords {
    // In the order of the words.
    pairs: Vec<(Word, Kind)>,
}

impl Model for BindWords {
    ghost use Rattle.std.specs.Prelude.{List};
    ghost use Rattle.service_binding.specs.Pairs.{NamedKind};

    ghost Value = { List NamedKind };

    ghost view = { λ words. words.pairs.items };
}

impl BindWords {
    /// The pairs in this order.
    pub fn new(pairs: Vec<(Word, Kind)>) -> Self
        ensures { result ≡ pairs.items }
    {
        BindWords { pairs }
    }

    /// The pairs in order.
    pub fn as_slice(&self) -> &[(Word, Kind)]
        ensures { result.now ≡ self.now }
    {
        self.pairs.as_slice()
    }

    /// The pairs in order, to be taken apart.
    pub fn into_vec(self) -> Vec<(Word, Kind)>
        ensures { result.items ≡ self }
    {
        self.pairs
    }
}

/// The parts of a word before and behind its first `=`.
pub fn at_equals(word: &str) -> Option<(&str, &str)>
    ensures { option_map (λ parts. (parts.0.now, parts.1.now)) result ≡ at_equals word.now }
{
    word.split_once('=')
}

/// The pair of a name and a kind's word.
fn pair_of_parts(alloc: Global, name: &str, kind: &str) -> Result<Option<(Word, Kind)>, AllocError>
    ensures { IfOk result (λ pair. pair ≡ pair_of_parts (name.now, kind.now)) }
{
    if name.is_empty() {
        return Ok(None);
    }
    let Some(kind) = handler_kind(kind) else {
        return Ok(None);
    };
    let name = Word::copied(alloc, name)?;
    Ok(Some((name, kind)))
}

/// The pair that a word is.
pub fn pair_of_word(alloc: Global, word: &str) -> Result<Option<(Word, Kind)>, AllocError>
    ensures { IfOk result (λ pair. pair ≡ pair_of_word word.now) }
{
    match at_equals(word) {
        Some((name, kind)) => pair_of_parts(alloc, name, kind),
        None => Ok(None),
    }
}
