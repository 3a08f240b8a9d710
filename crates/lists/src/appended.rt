//! A list that only proofs read.

ghost use Rattle.std.specs.Prelude.{◌≡◌, List, [], ◌∷◌, ◌++◌};
ghost use Rattle.std.specs.Borrow.{ftrue};

use std::marker::{Model, PhantomData};

/// What was appended so far, in a contract the list of it. It has no bytes, and its methods do nothing when they run: a
/// clause that ties it to something real gives it its sense.
#[derive(Drop)]
pub struct Appended<T> {
    items: Items<T>,
}

impl<T> Model for Appended<T> {
    ghost use Rattle.std.specs.Prelude.{List};

    ghost Value = { List T };

    ghost view = { λ appended. appended.items.items };
}

impl<T> Appended<T> {
    /// Holds nothing.
    pub fn new() -> Appended<T>
        ensures { result ≡ [] }
    {
        Appended {
            items: Items::new(),
        }
    }

    /// Appends an item.
    pub fn push(&mut self, item: &T)
        ensures { self.new ≡ self.old ++ item.now ∷ [] }
    {
        self.items = self.items.and(item);
    }
}

/// The items as a field: a struct of no bytes, of which the functions that make one are proved by hand.
#[derive(Drop)]
struct Items<T> {
    of: PhantomData<T>,
    pub ghost items: { List T },
}

impl<T> Model for Items<T> {
    ghost also_owns = { λ _. ftrue };
}

// It owns nothing.
unsafe impl<T: Send> Send for Items<T> {}

impl<T> Items<T> {
    /// Holds nothing.
    fn new() -> Items<T>
        ensures { result.items ≡ [] }
    {
        Items { of: PhantomData }
    }

    /// Gives the same with one item more.
    fn and(&self, item: &T) -> Items<T>
        ensures { result.items ≡ self.now.items ++ item.now ∷ [] }
    {
        Items { of: PhantomData }
    }
}
