//! What holds of all words.

ghost use Rattle.std.specs.Prelude.{◌≡◌, List, ℕ, Some};
ghost use Rattle.service_binding.specs.Pairs.{NamedKind, pair_of_word, word_of_pair};

/// The word of a pair is the word that it was read from.
pub fn a_pair_has_its_word()
    ensures { (word : List ℕ) (pair : NamedKind) → pair_of_word word ≡ Some pair → word_of_pair pair ≡ word }
{}
