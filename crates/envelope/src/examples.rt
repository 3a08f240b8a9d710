//! Worked examples of the definitions, each the contract of a function that does nothing.

ghost use Rattle.std.specs.Prelude.{◌≡◌, pos, negsuc, [], ◌∷◌, ◌++◌, codes, length};
ghost use Rattle.envelope.specs.Exception.{exception_text};

use super::head::Protocol;

/// What is written for calls that failed.
pub fn exceptions_are_written()
    ensures no_method { exception_text Protocol.Binary (codes "foo") (pos 5) (record { text = codes "Invalid method name: 'foo'"; code = pos 1 })
        ≡ (128 ∷ 1 ∷ 0 ∷ 3 ∷ 0 ∷ 0 ∷ 0 ∷ 3 ∷ codes "foo") ++ ((0 ∷ 0 ∷ 0 ∷ 5 ∷ 11 ∷ 0 ∷ 1 ∷ 0 ∷ 0 ∷ 0 ∷ 26 ∷ codes "Invalid method name: 'foo'")
        ++ (8 ∷ 0 ∷ 2 ∷ 0 ∷ 0 ∷ 0 ∷ 1 ∷ 0 ∷ [])) }
    ensures no_service { length (exception_text Protocol.Binary (codes "add") (pos 1) (record { text = codes "Service name not found: Nobody"; code = pos 1 })) ≡ 60 }
    ensures bad_arguments { exception_text Protocol.Binary (codes "f") (pos 1) (record { text = codes "Bad arguments: Missing x"; code = pos 7 })
        ≡ (128 ∷ 1 ∷ 0 ∷ 3 ∷ 0 ∷ 0 ∷ 0 ∷ 1 ∷ codes "f") ++ ((0 ∷ 0 ∷ 0 ∷ 1 ∷ 11 ∷ 0 ∷ 1 ∷ 0 ∷ 0 ∷ 0 ∷ 24 ∷ codes "Bad arguments: Missing x")
        ++ (8 ∷ 0 ∷ 2 ∷ 0 ∷ 0 ∷ 0 ∷ 7 ∷ 0 ∷ [])) }
    ensures compact { exception_text Protocol.Compact (codes "foo") (pos 5) (record { text = codes "Invalid method name: 'foo'"; code = pos 1 })
        ≡ (130 ∷ 97 ∷ 5 ∷ 3 ∷ codes "foo") ++ ((24 ∷ 26 ∷ codes "Invalid method name: 'foo'") ++ (21 ∷ 2 ∷ 0 ∷ [])) }
    ensures compact_numbers { exception_text Protocol.Compact (codes "zip") (pos 300) (record { text = codes "a"; code = negsuc 64 })
        ≡ (130 ∷ 97 ∷ 172 ∷ 2 ∷ 3 ∷ codes "zip") ++ (24 ∷ 1 ∷ 97 ∷ 21 ∷ 129 ∷ 1 ∷ 0 ∷ []) }
{}
