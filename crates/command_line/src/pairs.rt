//! The pairs of a command.

ghost use Rattle.std.specs.Prelude.{◌≡◌, option_map, IfOk};
ghost use Rattle.command_line.specs.CommandPairs.{command_pairs, pairs_of_words};
ghost use Rattle.command_line.specs.Lent.{lent_words};

use call_rules::Kind;
use service_binding::{Word, pair_of_word};
use std::alloc::{AllocError, Global};

/// The pairs that words are.
fn pairs_of_words(alloc: Global, words: &[&str]) -> Result<Option<Vec<(Word, Kind)>>, AllocError>
    ensures { IfOk result (λ pairs. option_map (λ made. made.items) pairs ≡ pairs_of_words (lent_words words.now)) }
{
    let mut pairs = Vec::new(alloc);
    for word in words {
        let Some(pair) = pair_of_word(alloc, word)? else {
            return Ok(None);
        };
        pairs.push(pair)?;
    }
    Ok(Some(pairs))
}

/// The pairs of a command: there are 1 to 16.
pub(crate) fn command_pairs(
    alloc: Global,
    words: &[&str],
) -> Result<Option<Vec<(Word, Kind)>>, AllocError>
    ensures { IfOk result (λ pairs. option_map (λ made. made.items) pairs ≡ command_pairs (lent_words words.now)) }
{
    if words.is_empty() || words.len() > 16 {
        return Ok(None);
    }
    pairs_of_words(alloc, words)
}
