//! What each step on the table tells. These types are for the proofs alone.
ghost use Rattle.std.specs.Prelude.{[], ◌++◌, ◌∷◌, Option, None};
ghost use Rattle.call_history.specs.declared.seat_call.SeatCall.{SeatCall};
ghost use Rattle.seat_booth.specs.declared.view.CallStage.TheVariants.{Idle};
ghost use Rattle.seat_booth.specs.Past.{view, without_first, only_first};
ghost use Rattle.seat_booth.specs.Steps.{drew, unchanged, looked, entered};

use crate::object::Object;
use crate::view::TokenView;
use atomic_table::{Join, Play, Split};
use std::marker::{Brand, PhantomData};

/// The view of a booth's tokens.
pub(crate) type ViewOf<O> = TokenView<
    <O as Object>::Op,
    <O as Object>::Reply,
    <O as Object>::Meaning,
>;

/// Names the call that `enter` makes. Each call of `enter` picks it.
pub(crate) trait CallNamed<Q, A, M> {
    ghost made: { Option (SeatCall Q A M) };
}

impl<Q, A, M> CallNamed<Q, A, M> for Brand {
    ghost made = { None };
}

pub(crate) struct Draw;

impl<O: Object> Play<O, ViewOf<O>> for Draw {
    ghost then = { drew };
}

pub(crate) struct Look<O> {
    object: PhantomData<O>,
}

impl<O: Object> Play<O, ViewOf<O>> for Look<O> {
    ghost then = { looked O.meaning O.gives O.may };
}

pub(crate) struct Enter<E> {
    made: PhantomData<E>,
}

impl<O: Object, E: CallNamed<O::Op, O::Reply, O::Meaning>> Play<O, ViewOf<O>> for Enter<E> {
    ghost then = { entered E.made };
}

pub(crate) struct Keep;

impl<S, V> Play<S, V> for Keep {
    ghost then = { unchanged };
}

/// Deals a seat, and takes it back.
pub(crate) struct Deal;

impl<Q, A, M> Split<TokenView<Q, A, M>> for Deal {
    ghost left = { without_first };

    ghost right = { only_first };
}

impl<Q, A, M> Join<TokenView<Q, A, M>> for Deal {
    ghost both = { λ v w. view v.opening v.stage (w.pasts ++ v.pasts) };

    ghost spent = { view None Idle [] };
}
