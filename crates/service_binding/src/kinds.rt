//! The words of kinds.

ghost use Rattle.std.specs.Prelude.{◌≡◌};
ghost use Rattle.service_binding.specs.Pairs.{handler_kind, word_of_kind};

use call_rules::Kind;

/// The word of a kind, as it stands behind the `=` of a pair.
pub fn kind_word(kind: Kind) -> &'static str
    ensures { result.now ≡ word_of_kind kind }
{
    match kind {
        Kind::Calculator => "calculator",
        Kind::Store => "store",
        Kind::Mirror => "mirror",
    }
}

/// The kind that a word names.
pub(crate) fn handler_kind(word: &str) -> Option<Kind>
    ensures { result ≡ handler_kind word.now }
{
    if word == "calculator" {
        return Some(Kind::Calculator);
    }
    if word == "store" {
        return Some(Kind::Store);
    }
    if word == "mirror" {
        return Some(Kind::Mirror);
    }
    None
}
