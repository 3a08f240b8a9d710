//! Texts that are written to be read again.
ghost use Rattle.std.specs.Prelude.{◌≡◌, ℕ, Bool, true, List, [], ◌∷◌, ◌++◌};
ghost use Rattle.idl_token.specs.Classes.{is_white};
ghost use Rattle.idl_token.specs.Wholes.{sound, whole_of};
ghost use Rattle.idl_token.specs.Tokens.{AreTokensOf};
ghost use Rattle.idl_token.specs.Spellings.{BareToken, bare_tokens, parted, any, Spelled, SpellsToken};

use crate::{Token, TokenKind};

/// A token spells itself, at the end of a text or in front of a byte that stands in no word and no number.
pub fn a_token_spells_itself()
    ensures { (token : List ℕ) (kind : TokenKind) → whole_of token ≡ sound kind → SpellsToken parted token (record { kind = kind; bytes = token } ∷ []) }
{}

/// A sign spells itself in front of anything.
pub fn a_sign_spells_itself()
    ensures { (s : ℕ) → whole_of (s ∷ []) ≡ sound TokenKind.Sign → SpellsToken any (s ∷ []) (record { kind = TokenKind.Sign; bytes = s ∷ [] } ∷ []) }
{}

/// White space spells nothing.
pub fn white_space_spells_nothing()
    ensures { (b : ℕ) → is_white b ≡ true → SpellsToken any (b ∷ []) [] }
{}

/// One text behind another spells the tokens of both.
pub fn joined_texts_spell_the_tokens_of_both()
    ensures { (before test : List ℕ → Bool) (first second : List ℕ) (ms ns : List BareToken) → SpellsToken before first ms → SpellsToken test second ns
        → ((more : List ℕ) → test more ≡ true → before (second ++ more) ≡ true) → SpellsToken test (first ++ second) (ms ++ ns) }
{}

/// A text that spells tokens to its end has these.
pub fn a_text_has_the_tokens_that_it_spells()
    ensures { (text : List ℕ) (marks : List BareToken) → Spelled text marks → (tokens : List Token) × AreTokensOf tokens text × (bare_tokens text tokens ≡ marks) }
{}
