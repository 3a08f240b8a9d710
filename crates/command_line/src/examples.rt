//! What the definition comes to on words that are commands: all parts of each command, of which the program shows only some. It is the contract of a function that does nothing.

ghost use Rattle.std.specs.Prelude.{◌≡◌, [], ◌∷◌, codes, Some, true, false};
ghost use Rattle.call_rules.specs.declared.kind.Kind.TheVariants as kinds;
ghost use Rattle.envelope.specs.declared.head.Protocol.TheVariants as protocols;
ghost use Rattle.command_line.specs.Words.{rehearses, records, serves, runs, calls, words_of};
ghost use Rattle.command_line.specs.Lines.{by_default, many, served, split};

/// Words are these commands.
pub fn commands()
    ensures pairs_a { words_of (split (codes "rehearse @tutorial binary 0 Calculator=calculator"))
        ≡ Some (rehearses (served (codes "@tutorial") protocols.Binary 0 ((codes "Calculator", kinds.Calculator) ∷ []) 16384000 268435456)) }
    ensures pairs_b { words_of (split (codes "rehearse a compact 8 A=store b.B=mirror"))
        ≡ Some (rehearses (served (codes "a") protocols.Compact 8 ((codes "A", kinds.Store) ∷ (codes "b.B", kinds.Mirror) ∷ []) 16384000 268435456)) }
    ensures pairs_c { words_of (split (codes "record a binary 1 A=mirror"))
        ≡ Some (records (served (codes "a") protocols.Binary 1 ((codes "A", kinds.Mirror) ∷ []) 16384000 268435456)) }
    ensures pairs_d { words_of (split (codes "rehearse a binary 0 A=calculator A=store"))
        ≡ Some (rehearses (served (codes "a") protocols.Binary 0 ((codes "A", kinds.Calculator) ∷ (codes "A", kinds.Store) ∷ []) 16384000 268435456)) }
    ensures pairs_e { words_of (split (codes "rehearse a binary 0 A=store A=store A=store A=store A=store A=store A=store A=store A=store A=store A=store A=store A=store A=store A=store A=store"))
        ≡ Some (rehearses (served (codes "a") protocols.Binary 0 (many 16 (codes "A", kinds.Store)) 16384000 268435456)) }
    ensures pairs_f { words_of (split (codes "record @tutorial compact 0000000008 Calculator=mirror"))
        ≡ Some (records (served (codes "@tutorial") protocols.Compact 8 ((codes "Calculator", kinds.Mirror) ∷ []) 16384000 268435456)) }
    ensures pairs_g { words_of (split (codes "rehearse rehearse binary 0 a-b=store"))
        ≡ Some (rehearses (served (codes "rehearse") protocols.Binary 0 ((codes "a-b", kinds.Store) ∷ []) 16384000 268435456)) }
    ensures limits_a { words_of (split (codes "rehearse --max-frame 30 a compact 08 A=store --read-budget=31 b.B=mirror"))
        ≡ Some (rehearses (served (codes "a") protocols.Compact 8 ((codes "A", kinds.Store) ∷ (codes "b.B", kinds.Mirror) ∷ []) 30 31)) }
    ensures limits_b { words_of (split (codes "rehearse --max-frame=30 a binary 0 A=store"))
        ≡ Some (rehearses (served (codes "a") protocols.Binary 0 ((codes "A", kinds.Store) ∷ []) 30 268435456)) }
    ensures limits_c { words_of (split (codes "rehearse a --max-frame 30 binary 0 A=store"))
        ≡ Some (rehearses (served (codes "a") protocols.Binary 0 ((codes "A", kinds.Store) ∷ []) 30 268435456)) }
    ensures limits_d { words_of (split (codes "record a binary --max-frame=30 0 A=store"))
        ≡ Some (records (served (codes "a") protocols.Binary 0 ((codes "A", kinds.Store) ∷ []) 30 268435456)) }
    ensures limits_e { words_of (split (codes "record a binary 0 --read-budget 16384000 A=store"))
        ≡ Some (records (served (codes "a") protocols.Binary 0 ((codes "A", kinds.Store) ∷ []) 16384000 16384000)) }
    ensures limits_f { words_of (split (codes "record a binary 0 A=store --read-budget=16384000 --max-frame 0000000007"))
        ≡ Some (records (served (codes "a") protocols.Binary 0 ((codes "A", kinds.Store) ∷ []) 7 16384000)) }
    ensures limits_g { words_of (split (codes "rehearse a binary 0 A=store --max-frame 268435456"))
        ≡ Some (rehearses (served (codes "a") protocols.Binary 0 ((codes "A", kinds.Store) ∷ []) 268435456 268435456)) }
    ensures limits_h { words_of (split (codes "rehearse a binary 0 A=store --max-frame 1 --read-budget 1"))
        ≡ Some (rehearses (served (codes "a") protocols.Binary 0 ((codes "A", kinds.Store) ∷ []) 1 1)) }
    ensures limits_i { words_of (split (codes "record --read-budget=30 --max-frame=30 a binary 0 A=store"))
        ≡ Some (records (served (codes "a") protocols.Binary 0 ((codes "A", kinds.Store) ∷ []) 30 30)) }
    ensures default_a { words_of (split (codes "rehearse a binary 0 A=store --default A"))
        ≡ Some (rehearses (by_default (codes "A") (served (codes "a") protocols.Binary 0 ((codes "A", kinds.Store) ∷ []) 16384000 268435456))) }
    ensures default_b { words_of (split (codes "record --default=B a compact 8 A=store --max-frame 30 B=mirror"))
        ≡ Some (records (by_default (codes "B") (served (codes "a") protocols.Compact 8 ((codes "A", kinds.Store) ∷ (codes "B", kinds.Mirror) ∷ []) 30 268435456))) }
    ensures default_c { words_of (split (codes "rehearse a binary 0 A=store A=store A=store A=store A=store A=store A=store A=store A=store A=store A=store A=store A=store A=store A=store A=store --default A"))
        ≡ Some (rehearses (by_default (codes "A") (served (codes "a") protocols.Binary 0 (many 16 (codes "A", kinds.Store)) 16384000 268435456))) }
    ensures serve_a { words_of (split (codes "serve a compact 2 A=store --listen 9090 --accept 10 --journal j"))
        ≡ Some (serves (served (codes "a") protocols.Compact 2 ((codes "A", kinds.Store) ∷ []) 16384000 268435456) 9090 10 (codes "j")) }
    ensures serve_b { words_of (split (codes "serve --listen 1 --accept 1 --journal j a binary 0 A=store"))
        ≡ Some (serves (served (codes "a") protocols.Binary 0 ((codes "A", kinds.Store) ∷ []) 16384000 268435456) 1 1 (codes "j")) }
    ensures serve_c { words_of (split (codes "serve --journal=j --accept=1000000 a --listen=65535 binary 8 A=mirror"))
        ≡ Some (serves (served (codes "a") protocols.Binary 8 ((codes "A", kinds.Mirror) ∷ []) 16384000 268435456) 65535 1000000 (codes "j")) }
    ensures serve_d { words_of (split (codes "serve a binary 0 A=store --listen=1 --accept 2 --journal=a=b"))
        ≡ Some (serves (served (codes "a") protocols.Binary 0 ((codes "A", kinds.Store) ∷ []) 16384000 268435456) 1 2 (codes "a=b")) }
    ensures serve_e { words_of (split (codes "serve a binary 0 A=store --listen=1 --accept 2 --journal=-j"))
        ≡ Some (serves (served (codes "a") protocols.Binary 0 ((codes "A", kinds.Store) ∷ []) 16384000 268435456) 1 2 (codes "-j")) }
    ensures serve_f { words_of (split (codes "serve a binary 0 --max-frame 5 A=store --listen 0000000003 --read-budget=6 --accept=0000000002 --journal j.k"))
        ≡ Some (serves (served (codes "a") protocols.Binary 0 ((codes "A", kinds.Store) ∷ []) 5 6) 3 2 (codes "j.k")) }
    ensures serve_g { words_of (split (codes "serve @tutorial binary 0 A=store --listen=65535 --accept=1 --journal=--"))
        ≡ Some (serves (served (codes "@tutorial") protocols.Binary 0 ((codes "A", kinds.Store) ∷ []) 16384000 268435456) 65535 1 (codes "--")) }
    ensures serve_h { words_of (split (codes "serve a --journal binary binary 0 --accept 1 A=store --listen 1 B=mirror"))
        ≡ Some (serves (served (codes "a") protocols.Binary 0 ((codes "A", kinds.Store) ∷ (codes "B", kinds.Mirror) ∷ []) 16384000 268435456) 1 1 (codes "binary")) }
    ensures serve_i { words_of (split (codes "serve a binary 0 A=store --default=-=B --listen 1 --accept 1 --journal j"))
        ≡ Some (serves (by_default (codes "-=B") (served (codes "a") protocols.Binary 0 ((codes "A", kinds.Store) ∷ []) 16384000 268435456)) 1 1 (codes "j")) }
    ensures workload_a { words_of (split (codes "workload 1 2 3"))
        ≡ Some (runs 1 2 3) }
    ensures workload_b { words_of (split (codes "workload 9999999999999999999 1000000 8"))
        ≡ Some (runs 9999999999999999999 1000000 8) }
    ensures workload_c { words_of (split (codes "workload 0000000000000000000 0000000001 0000000000"))
        ≡ Some (runs 0 1 0) }
    ensures workload_d { words_of (split (codes "workload 0 1 0"))
        ≡ Some (runs 0 1 0) }
    ensures call_a { words_of (split (codes "call @tutorial binary Calculator add {1=1i,2=1i} --to 9090"))
        ≡ Some (calls (record { idl = codes "@tutorial"; protocol = protocols.Binary; name = codes "Calculator"; method = codes "add"; args = codes "{1=1i,2=1i}"; multiplexed = false; port = 9090 })) }
    ensures call_b { words_of (split (codes "call --multiplexed a compact b.S m {} --to=1"))
        ≡ Some (calls (record { idl = codes "a"; protocol = protocols.Compact; name = codes "b.S"; method = codes "m"; args = codes "{}"; multiplexed = true; port = 1 })) }
    ensures call_c { words_of (split (codes "call a --to 0000000007 binary a:b --multiplexed m ="))
        ≡ Some (calls (record { idl = codes "a"; protocol = protocols.Binary; name = codes "a:b"; method = codes "m"; args = codes "="; multiplexed = true; port = 7 })) }
    ensures call_d { words_of (split (codes "call a binary   x --to 65535"))
        ≡ Some (calls (record { idl = codes "a"; protocol = protocols.Binary; name = codes ""; method = codes ""; args = codes "x"; multiplexed = false; port = 65535 })) }
{}
