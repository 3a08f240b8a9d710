//! Where calls are entered with their answers.

ghost use Rattle.std.specs.Prelude.{◌≡◌, ◌≤◌, ℕ, Bool, true, false, List, [], ◌∷◌, ◌++◌, Option, OnOk, MatchResult};
ghost use Rattle.std.specs.Option.{option_map};
ghost use Rattle.streams.specs.Cause.{HasCause};
ghost use Rattle.call_rules.specs.Entries.{CallEntry};
ghost use Rattle.call_rules.specs.PlainCalls.{IsPlainCall, IsPlainAnswer};

use crate::call::Entry;
use std::alloc::AllocError;
use streams::Failed;

/// Where calls are entered with their answers, in the order in which they took effect.
pub trait Journal {
    // Its entries, where they are told.
    ghost told: { Self → Option (List CallEntry) };
    // How many faults were counted; the count stands still at 2^64 - 1.
    ghost faults: { Self → ℕ };
    // Whether an append has failed.
    ghost torn: { Self → Bool };
    // For how many entries room is reserved.
    ghost room: { Self → ℕ };

    /// Takes room for an entry.
    fn reserve(&mut self) -> Result<(), AllocError>
        ensures reserved { OnOk result (1 ≤ room self.new) }
        ensures told { told self.new ≡ told self.old }
        ensures faults { faults self.new ≡ faults self.old }
        ensures torn { torn self.new ≡ torn self.old };

    /// Enters a call at the end; takes no memory.
    fn append(&mut self, entry: Entry) -> Result<(), Failed>
        requires whole { torn self.old ≡ false }
        requires reserved { 1 ≤ room self.old }
        requires call { IsPlainCall entry.call }
        requires answer { IsPlainAnswer entry.answer }
        ensures entered { MatchResult result
            (λ _. told self.new ≡ option_map (λ (es : List CallEntry). es ++ entry ∷ []) (told self.old))
            (λ _. told self.new ≡ told self.old) }
        ensures torn { MatchResult result (λ _. torn self.new ≡ false) (λ _. torn self.new ≡ true) }
        ensures cause { HasCause (faults self.old) (faults self.new) result };
}
