//! Flags, made options with an empty value, as which `clap` knows them.

ghost use Rattle.std.specs.Prelude.{◌≡◌, ◌∷◌, ◌++◌, [], map, option_map, is_some, string_bytes, IfOk};
ghost use Rattle.command_line.specs.Flagless.{flagless_at, flagless_word, flagless_words};
ghost use Rattle.command_line.specs.Lent.{lent_words};
ghost use Rattle.command_line.specs.Options.{behind_dashes, has_option};
ghost use Rattle.service_binding.specs.Equals.{at_equals};

use service_binding::at_equals;
use std::alloc::{AllocError, Global};

/// Whether a word is among words.
fn is_among(words: &[&str], word: &str) -> bool
    ensures { result ≡ has_option (lent_words words.now) word.now }
{
    for other in words {
        if *other == word {
            return true;
        }
    }
    false
}

/// Whether a word begins with `--`.
fn begins_with_dashes(word: &str) -> bool
    ensures { result ≡ is_some (behind_dashes word.now) }
{
    match word.as_bytes() {
        [b'-', b'-', ..] => true,
        _ => false,
    }
}

/// A word with `=` behind it.
fn with_equals(alloc: Global, word: &str) -> Result<String, AllocError>
    ensures { IfOk result (λ made. string_bytes made ≡ word.now ++ 61 ∷ []) }
{
    let mut made = String::from_str(alloc, word)?;
    made.push_str("=")?;
    Ok(made)
}

/// What a dashed word becomes; none where it is a flag with a value.
fn flagless_at(alloc: Global, flags: &[&str], word: &str) -> Result<Option<String>, AllocError>
    ensures { IfOk result (λ made. option_map string_bytes made ≡ flagless_at (lent_words flags.now) word.now (at_equals word.now)) }
{
    match at_equals(word) {
        Some((front, _)) => {
            if is_among(flags, front) {
                return Ok(None);
            }
        }
        None => {
            if is_among(flags, word) {
                return Ok(Some(with_equals(alloc, word)?));
            }
        }
    }
    Ok(Some(String::from_str(alloc, word)?))
}

/// What a word becomes; none where it is a flag with a value.
fn flagless_word(alloc: Global, flags: &[&str], word: &str) -> Result<Option<String>, AllocError>
    ensures { IfOk result (λ made. option_map string_bytes made ≡ flagless_word (lent_words flags.now) word.now) }
{
    if begins_with_dashes(word) {
        return flagless_at(alloc, flags, word);
    }
    Ok(Some(String::from_str(alloc, word)?))
}

/// A copy of words, in which each of these flags has become an option with an empty value; none where a flag has a value.
pub(crate) fn flagless_words(
    alloc: Global,
    flags: &[&str],
    words: &[String],
) -> Result<Option<Vec<String>>, AllocError>
    ensures { IfOk result (λ made. option_map (λ all. map string_bytes all.items) made ≡ flagless_words (lent_words flags.now) (map string_bytes words.now)) }
{
    let mut made = Vec::with_capacity(alloc, words.len())?;
    for word in words {
        let Some(word) = flagless_word(alloc, flags, word.as_str())? else {
            return Ok(None);
        };
        made.push(word)?;
    }
    Ok(Some(made))
}
