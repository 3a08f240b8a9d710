//! What a binder has handed out, counted for proofs alone.

ghost use Rattle.std.specs.Prelude.{◌≡◌};
ghost use Rattle.outside.specs.Binding.{one_more_back, one_more_out};

use lists::Appended;
use std::marker::Model;

/// How many links and pipes a binder has handed out, and how many of them have come back. It has no bytes, and its methods do
/// nothing when they run: a binder that keeps one tells both counts.
#[derive(Drop)]
pub struct Handed {
    // An item for each that was handed out.
    out: Appended<()>,
    // An item for each that has come back.
    back: Appended<()>,
}

impl Model for Handed {
    ghost use Rattle.std.specs.Prelude.{length};
    ghost use Rattle.outside.specs.Binding.{HandedOut};

    ghost Value = { HandedOut };

    ghost view = { λ h. record { out = length h.out; back = length h.back } };
}

impl Handed {
    /// Nothing was handed out.
    pub fn new() -> Self
        ensures { result ≡ record { out = 0; back = 0 } }
    {
        Handed {
            out: Appended::new(),
            back: Appended::new(),
        }
    }

    /// Counts one more that is handed out.
    pub fn hand_out(&mut self)
        ensures { self.new ≡ one_more_out self.old }
    {
        self.out.push(&());
    }

    /// Counts one more that has come back.
    pub fn take_back(&mut self)
        ensures { self.new ≡ one_more_back self.old }
    {
        self.back.push(&());
    }
}
