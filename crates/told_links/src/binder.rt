//! A binder over another binder.

ghost use Rattle.std.specs.Prelude.{◌≡◌, [], true};

use crate::links::ToldLinks;
use crate::pipe::ToldPipe;
use lists::Appended;
use outside::{BindFail, Binder};
use std::alloc::Global;
use std::marker::Model;
use std::snapshot::Snapshot;

/// A binder whose links and pipes tell what they did, and which tells of those that came back.
#[derive(Drop)]
pub struct ToldBinder<B: Binder + Drop> {
    inner: B,
    // The links that came back, the oldest first, for proofs alone.
    past: Appended<ToldLinks<B::L>>,
    // The pipes that were hung up, the oldest first, for proofs alone.
    called: Appended<ToldPipe<B::P>>,
    // The binder as it was handed in, for proofs alone.
    opening: Snapshot<B>,
}

impl<B: Binder + Drop> Model for ToldBinder<B> {
    ghost use Rattle.std.specs.Prelude.{map};
    ghost use Rattle.told_links.specs.Shown.{ToldReturns};
    ghost use Rattle.told_links.specs.Same.{HasTheseMore};
    ghost use Rattle.told_links.specs.Telling.{returned_links, hung_up_pipe};

    ghost Value = { ToldReturns B };

    ghost view = { λ b. record {
      inner = b.inner;
      past = map (λ links. returned_links (B.L.state links.inner) links.tape) b.past;
      called = map (λ pipe. hung_up_pipe (B.P.state pipe.inner) pipe.written pipe.given pipe.ended) b.called;
    } };

    // Where the binder inside tells what came back to it, these came back since it was handed in.
    ghost invariant = { λ b.
        HasTheseMore (B.past b.opening.value)
        (map (λ links. returned_links (B.L.state links.inner) links.tape) b.past) (B.past b.inner)
        × HasTheseMore (B.called b.opening.value)
        (map (λ pipe. hung_up_pipe (B.P.state pipe.inner) pipe.written pipe.given pipe.ended) b.called) (B.called b.inner) };
}

impl<B: Binder + Drop> ToldBinder<B> {
    /// Over this binder, which is left as it is. No links have come back yet, and no pipe.
    pub fn new(inner: B) -> ToldBinder<B>
        ensures { result ≡ record { inner = inner; past = []; called = [] } }
    {
        let opening = Snapshot::of(&inner);
        ToldBinder {
            inner,
            opening,
            past: Appended::new(),
            called: Appended::new(),
        }
    }

    /// Whether it tells of the links that came back: it does, whatever it stands over.
    pub fn tells(&self) -> bool
        ensures { result ≡ true }
    {
        true
    }
}

impl<B: Binder + Drop> Binder for ToldBinder<B> {
    ghost use Rattle.std.specs.Prelude.{Some};

    type L = ToldLinks<B::L>;

    type P = ToldPipe<B::P>;

    ghost past = { λ b. Some b.past };

    ghost called = { λ b. Some b.called };

    ghost faults = { λ b. B.faults b.inner };

    ghost handed = { λ b. B.handed b.inner };

    fn listen(
        &mut self,
        alloc: Global,
        port: u16,
        accept: u32,
    ) -> Result<ToldLinks<B::L>, BindFail> {
        match self.inner.listen(alloc, port, accept) {
            Ok(inner) => Ok(ToldLinks {
                inner,
                tape: Appended::new(),
            }),
            Err(fail) => Err(fail),
        }
    }

    #[tactic(auto, using(crate::proofs::Adding::past_added))]
    fn take_back(&mut self, links: ToldLinks<B::L>) {
        self.past.push(&links);
        let ToldLinks { inner, tape: _ } = links;
        self.inner.take_back(inner);
    }

    fn dial(&mut self, alloc: Global, port: u16) -> Result<ToldPipe<B::P>, BindFail> {
        match self.inner.dial(alloc, port) {
            Ok(inner) => Ok(ToldPipe {
                inner,
                written: Appended::new(),
                given: Appended::new(),
                ends: Appended::new(),
            }),
            Err(fail) => Err(fail),
        }
    }

    #[tactic(auto, using(crate::proofs::Adding::call_added))]
    fn hang_up(&mut self, pipe: ToldPipe<B::P>) {
        self.called.push(&pipe);
        let ToldPipe {
            inner,
            written: _,
            given: _,
            ends: _,
        } = pipe;
        self.inner.hang_up(inner);
    }
}
