//! The levels that are open.

ghost use Rattle.std.specs.Prelude.{◌≡◌, ◌<◌, [], ◌∷◌, length, IfOk, MatchOption};
ghost use Rattle.wire_model.specs.Place.{most_levels};

use super::stage::Level;
use limits::MOST_LEVELS;
use std::alloc::{AllocError, Global};
use std::marker::Model;

/// The open structs and containers of a value, in a contract the innermost first, with room for as many as may be open.
#[derive(Drop)]
pub(crate) struct Levels {
    // The innermost stands last.
    open: Vec<Level>,
}

impl Model for Levels {
    ghost use Rattle.std.specs.Prelude.{◌≤◌, List, reverse, vec_capacity};
    ghost use Rattle.wire_model.specs.Place.{most_levels};
    ghost use Rattle.stream_reader.specs.declared.stage.Level.{Level};

    ghost Value = { List Level };

    ghost view = { λ l. reverse l.open.items };

    ghost invariant = { λ l. most_levels ≤ vec_capacity l.open };
}

impl Levels {
    /// None is open.
    pub(crate) fn new(alloc: Global) -> Result<Levels, AllocError>
        ensures { IfOk result (λ l. l ≡ []) }
    {
        let open = Vec::with_capacity(alloc, MOST_LEVELS as usize)?;
        Ok(Levels { open })
    }

    /// Forgets all of them.
    pub(crate) fn clear(&mut self)
        ensures { self.new ≡ [] }
    {
        self.open.clear();
    }

    /// Opens one.
    #[tactic(auto, using(crate::proofs::Steps::stack_top, crate::proofs::Steps::reversed_len))]
    pub(crate) fn push(&mut self, level: Level)
        requires { length self.old < most_levels }
        ensures { self.new ≡ level ∷ self.old }
    {
        self.open.push_reserved(level);
    }

    /// Takes the innermost off, if one is open.
    #[tactic(auto, using(crate::proofs::Steps::stack_top))]
    pub(crate) fn pop(&mut self) -> Option<Level>
        ensures { MatchOption result ((self.old ≡ []) × (self.new ≡ [])) (λ level. self.old ≡ level ∷ self.new) }
    {
        self.open.pop()
    }
}
