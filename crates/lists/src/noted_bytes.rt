//! Bytes that only proofs read.

ghost use Rattle.std.specs.Prelude.{◌≡◌, ℕ, List};
ghost use Rattle.std.specs.Borrow.{ftrue};

use std::marker::{Model, PhantomData};

/// Bytes as they were at one time, in a contract the list of them. It has no bytes when it runs.
#[derive(Drop)]
pub struct NotedBytes {
    bytes: Noted,
}

impl Model for NotedBytes {
    ghost use Rattle.std.specs.Prelude.{ℕ, List};

    ghost Value = { List ℕ };

    ghost view = { λ noted. noted.bytes.items };
}

impl NotedBytes {
    /// Notes these bytes.
    pub fn of(bytes: &[u8]) -> NotedBytes
        ensures { result ≡ bytes.now }
    {
        NotedBytes {
            bytes: Noted::of(bytes),
        }
    }
}

/// The bytes as a field: a struct of no bytes, of which the function that makes one is proved by hand.
#[derive(Drop)]
struct Noted {
    of: PhantomData<u8>,
    pub ghost items: { List ℕ },
}

impl Model for Noted {
    ghost also_owns = { λ _. ftrue };
}

// It owns nothing.
unsafe impl Send for Noted {}

impl Noted {
    /// These bytes.
    fn of(bytes: &[u8]) -> Noted
        ensures { result.items ≡ bytes.now }
    {
        Noted { of: PhantomData }
    }
}
